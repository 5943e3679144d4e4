//! Laws of the spelling of component files.
ghost use Rattle.std.specs.Prelude.{ℕ, List};
ghost use Rattle.std.specs.List.{flat_map};
ghost use Rattle.xml_pieces.specs.Written.{spelled};
ghost use Rattle.component_files.specs.declared.element.ComponentFile.{ComponentFile};
ghost use Rattle.component_files.specs.ComponentGrammar.{IsComponent};
ghost use Rattle.component_writer.specs.Aside.{ReadsAs, CanBeRead};
ghost use Rattle.component_writer.specs.Spelling.{file_pieces};

/// The spelling of a component file reads as the same file, lines and columns aside.
pub fn spellings_are_read()
    ensures { (file : ComponentFile) → CanBeRead file → ReadsAs (flat_map spelled (file_pieces file)) file }
{}

/// Each component file that was read can be written.
pub fn read_files_can_be_written()
    ensures { (bytes : List ℕ) (file : ComponentFile) → IsComponent bytes file → CanBeRead file }
{}
