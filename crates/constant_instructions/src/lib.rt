//! Instructions that push a text or a function, and those that load what a name reads as: each does the row of its instruction, whatever
//! machine the actor is seen as.
#![tactic(auto)]

mod constants;
mod loading;
mod names;

pub use constants::{push_function, push_text};
pub use loading::{load, load_named};
