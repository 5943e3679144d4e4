//! How the code of functions stands to the forms of a tree.
#![tactic(auto)]

mod exits;

pub use exits::Exits;
