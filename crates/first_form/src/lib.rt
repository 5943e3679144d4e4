//! The first form of source file that runs: one `main` of assignments, sums and prints, and how it is read.
#![tactic(auto)]

mod cursor;
mod names;
pub mod reading;
mod repeat;
mod source;
pub mod tree;
mod words;

pub use source::first_main;
