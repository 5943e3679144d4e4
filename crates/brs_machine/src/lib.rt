//! The machine of an actor: its homes and its calls in progress, what the world asks of them, how it answers them, and their end.
#![tactic(auto)]

mod actor;
mod first;
mod home;
pub mod laws;

pub use actor::Actor;
pub use home::HomeId;
