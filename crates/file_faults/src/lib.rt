//! A source file of a channel: its tree, or its first fault.
#![tactic(auto)]

mod laws;
mod source;

pub use laws::{never_both, one_fault, one_tree, tree_or_fault};
pub use source::{SourceAnswer, SourceFault, read_source};
