//! Errors of the running machine: an error at an instruction, or one that was handed back, ends all calls and is told with its place.
#![tactic(auto)]

mod ending;

pub use ending::{raise, raise_handed_back};
