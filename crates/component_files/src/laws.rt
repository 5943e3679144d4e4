//! Laws of the grammar of component files.
ghost use Rattle.std.specs.Prelude.{◌≡◌, ◌⊎◌, ℕ, List};
ghost use Rattle.component_files.specs.declared.element.ComponentFile.{ComponentFile};
ghost use Rattle.component_files.specs.ComponentGrammar.{IsComponent, IsFirstFault};

/// Bytes stand for at most one component file.
pub fn one_file()
    ensures { (bytes : List ℕ) (f g : ComponentFile) → IsComponent bytes f → IsComponent bytes g → f ≡ g }
{}

/// Bytes have at most one first fault.
pub fn one_fault()
    ensures { (bytes : List ℕ) (m n : ℕ) → IsFirstFault bytes m → IsFirstFault bytes n → m ≡ n }
{}

/// Bytes stand for a component file or have a first fault.
pub fn file_or_fault()
    ensures { (bytes : List ℕ) → ((f : ComponentFile) × IsComponent bytes f) ⊎ ((n : ℕ) × IsFirstFault bytes n) }
{}

/// Bytes never both stand for a component file and have a first fault.
pub fn never_both()
    ensures { (bytes : List ℕ) (f : ComponentFile) (n : ℕ) → IsComponent bytes f → IsFirstFault bytes n → ⊥ }
{}
