//! The grammar of BrightScript: the syntax tree of a source file, the relation between token lists and trees, and its laws.
#![tactic(auto)]

pub mod classes;
pub mod laws;
pub mod signs;
pub mod tree;
