//! What instructions that only move values do: the innermost call after them, and the heap that counts what all calls hold.
#![tactic(auto)]

mod conditions;
mod operands;
mod places;
mod slots;

pub use conditions::take_truth;
pub use operands::{drop_to, push_value, take_value};
pub use places::go_to;
pub use slots::{load_m, load_slot, store};
