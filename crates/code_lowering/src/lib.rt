//! The code of a file from the drafts of its functions: names come into tables, jumps lead to places, and each instruction tells how many
//! operands stand where it begins.
#![tactic(auto)]

mod file;
mod function;

pub use file::lowered;
