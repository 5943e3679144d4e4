//! Instructions that make an array or an associative array of the last operands: each does the row of its instruction, whatever machine the
//! actor is seen as.
#![tactic(auto)]

mod arrays;
mod literals;
mod pairs;

pub use literals::{make_array, make_pairs};
