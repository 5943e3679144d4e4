//! Laws of what the forms of the outside hold, each as the contract of a function that does nothing.
ghost use Rattle.std.specs.Prelude.{◌≡◌, ◌≢◌, ℕ, List, [], ◌++◌, unwrap_or};
ghost use Rattle.outside.specs.declared.files.FileBytes.{FileBytes};
ghost use Rattle.outside.specs.Folder.{IsMap, appended, content_of};

/// Bytes that are appended stand at the end of what their file held, every other file holds what it held, and bytes that are
/// appended one after another are appended together.
#[tactic(auto, using(crate::proofs::Appending::this_file, crate::proofs::Appending::other_file, crate::proofs::Appending::twice))]
pub fn append_changes_one_file()
    ensures this_file { (path bytes : List ℕ) (files : List FileBytes) → IsMap files
        → content_of (appended path bytes files) path ≡ Some (unwrap_or (content_of files path) [] ++ bytes) }
    ensures other_files { (path bytes other : List ℕ) (files : List FileBytes) → path ≢ other
        → content_of (appended path bytes files) other ≡ content_of files other }
    ensures in_turn { (path first second : List ℕ) (files : List FileBytes)
        → appended path second (appended path first files) ≡ appended path (first ++ second) files }
{}
