//! What the running machine of an actor shows and takes, and how it is seen as the machine of the meaning.
#![tactic(auto)]

pub mod laws;
mod outcome;
mod phase;

pub use outcome::{Answer, Arguments, Outcome, Request};
pub use phase::Phase;
