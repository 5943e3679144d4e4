//! Instructions that leave a function: a value goes to the call below, which goes on, or leaves the actor.
#![tactic(auto)]

mod departure;
mod landing;
mod leaving;
mod returns;

pub use landing::land;
pub use leaving::Leaving;
pub use returns::{end_function, return_invalid, return_value};
