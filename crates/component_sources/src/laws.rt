//! Laws of the faults of component files.
ghost use Rattle.std.specs.Prelude.{◌≡◌, ◌⊎◌, ℕ, List};
ghost use Rattle.component_sources.specs.ComponentFaults.{IsComponentFault, IsGoodComponent};
ghost use Rattle.component_sources.specs.declared.component.CheckedComponent.{CheckedComponent};
ghost use Rattle.component_sources.specs.declared.component.ComponentFault.{ComponentFault};

use component_files::{
    file_or_fault as component_or_syntax, never_both as never_both_of_files,
    one_fault as one_syntax, one_file,
};
use file_faults::{never_both, one_fault, one_tree, tree_or_fault};

/// Bytes are at most one component file whose inline scripts have no fault.
pub fn one_component()
    ensures { (bytes : List ℕ) (a b : CheckedComponent) → IsGoodComponent bytes a → IsGoodComponent bytes b → a ≡ b }
{
    one_tree();
    one_file();
}

/// A component file has at most one first fault.
pub fn one_component_fault()
    ensures { (bytes : List ℕ) (a b : ComponentFault) → IsComponentFault bytes a → IsComponentFault bytes b → a ≡ b }
{
    one_fault();
    never_both();
    one_file();
    one_syntax();
    never_both_of_files();
}

/// A component file never has both.
pub fn never_both_of_components()
    ensures { (bytes : List ℕ) (checked : CheckedComponent) (fault : ComponentFault) → IsGoodComponent bytes checked → IsComponentFault bytes fault → ⊥ }
{
    never_both();
    one_file();
    never_both_of_files();
}

/// Bytes have one of them.
pub fn component_or_fault()
    ensures { (bytes : List ℕ) → ((checked : CheckedComponent) × IsGoodComponent bytes checked) ⊎ ((fault : ComponentFault) × IsComponentFault bytes fault) }
{
    tree_or_fault();
    component_or_syntax();
}
