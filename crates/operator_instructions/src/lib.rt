//! Instructions that apply an operator to the last operands: each does the row of its instruction, whatever machine the actor is seen as.
#![tactic(auto)]

mod operating;
mod operators;

pub use operators::{binary, negate, not};
