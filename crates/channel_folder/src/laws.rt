//! Laws of the faults of a folder.
ghost use Rattle.std.specs.Prelude.{◌≡◌, ◌≤◌, List, Option, None};
ghost use Rattle.chan_values.specs.declared.folder_fault.FolderFault.{FolderFault as Refused};
ghost use Rattle.outside.specs.declared.files.FileBytes.{FileBytes as File};
ghost use Rattle.folder_files.specs.SizeFaults.{first_size_fault};
ghost use Rattle.script_faults.specs.Sources.{function_count};
ghost use Rattle.channel_folder.specs.Contents.{Hold};
ghost use Rattle.channel_folder.specs.FolderFaults.{IsFirstFault};
ghost use Rattle.channel_folder.specs.declared.contents.Contents.{Contents as Held};

use brs_tokens::{tokens_are_spelled, tokens_are_the_longest_pieces, tokens_stand_in_order};
use component_sources::{never_both_of_components, one_component, one_component_fault};
use file_faults::{never_both, one_fault, one_tree};

/// A folder has at most one first fault, and none where it has no fault.
pub fn one_first_fault()
    ensures { (files : List File) (a b : Option Refused) → IsFirstFault files a → IsFirstFault files b → a ≡ b }
{
    one_tree();
    one_fault();
    never_both();
    one_component();
    one_component_fault();
    never_both_of_components();
}

/// A folder whose sizes have no fault has at most as many functions as its files may have bytes, so each has a number below 2^32.
pub fn few_functions()
    ensures { (files : List File) (held : Held) → first_size_fault files ≡ None → Hold files held → function_count held.sources ≤ 16777216 }
{
    tokens_are_spelled();
    tokens_stand_in_order();
    tokens_are_the_longest_pieces();
}
