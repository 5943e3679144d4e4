//! The check of a channel's folder: its first fault, or the channel that it holds.
#![tactic(auto)]

mod answer;
mod check;
mod contents;
mod faults;
mod files;
mod functions;
mod gate;
mod kind;
mod laws;

pub use answer::CheckAnswer;
pub use check::{Channel, check_folder};
pub use contents::Contents;
pub use gate::{Gate, NoGate};
pub use laws::{few_functions, one_first_fault};
