//! The files of a channel's folder: their reading within the bounds on their number and sizes, and the lines of the manifest.
#![tactic(auto)]

mod answer;
mod gathered;
mod manifest;
mod read;

pub use answer::FolderAnswer;
pub use manifest::{first_manifest_fault, is_good_manifest};
pub use read::read_folder;
