//! The made channel: a channel of any size from 1 to 200, with as many source functions and components, and a script for it.
#![tactic(auto)]

mod files;
mod made;

pub use made::{Made, make_channel};
