//! Instructions of loops: each does the row of its instruction, whatever machine the actor is seen as.
#![tactic(auto)]

mod changes;
mod counted;
mod numbers;
mod reading;

pub use counted::{begin_for, begin_for_step, next_for, test_for};
