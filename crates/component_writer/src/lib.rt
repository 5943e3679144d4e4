//! SceneGraph component files: from the file to bytes that read as the same file.
//!
//! The spelling of a file is a list of pieces. Each function here adds the bytes of some of them, and a law says that all of them
//! together are read as the file that they were made from.
//!
//! Source: SceneGraph XML Guide, "Component Definition".
#![tactic(auto)]

mod children;
mod elements;
mod laws;
mod tags;
mod write;

pub use laws::{read_files_can_be_written, spellings_are_read};
pub use write::write_component;
