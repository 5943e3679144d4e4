//! What an instruction does to the call that performs it: it goes on, raises an error, or asks the world and waits.
#![tactic(auto)]

mod effect;

pub use effect::Effect;
