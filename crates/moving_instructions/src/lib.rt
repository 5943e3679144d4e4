//! Instructions that only move values: each does the row of its instruction, whatever machine the actor is seen as.
#![tactic(auto)]

mod conditions;
mod constants;
mod locals;
mod places;

pub use conditions::{and_decides, branch, or_decides};
pub use constants::{push_integer, push_invalid, push_long_integer, push_truth};
pub use locals::{load, load_m, store};
pub use places::{again, drop_last, exit, place_behind, while_begins};
