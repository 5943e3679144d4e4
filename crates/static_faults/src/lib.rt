//! The first static fault of a source file: what the grammar takes and the language refuses before a step is taken.
#![tactic(auto)]

mod fault;
mod file;
mod names;
mod order;
mod walk;

pub use fault::{StaticFault, StaticKind, Surroundings};
pub use file::static_fault;
