//! The walk over a tree: the code of each function of a file before its names stand in tables.
//!
//! A tree is walked from its last part to its first, and code grows at its front, so that each part is read once and each jump forward
//! knows how far it leads. The further arms of an `if` are gone through by a loop, and no recursion is deeper than the tree.
#![tactic(auto)]

mod expressions;
mod file;
mod functions;
mod statements;
mod targets;

pub use file::file_drafts;
