//! Laws of each step and each event, in any world: how many things there are, what a step leaves in place, and how owners change.
#![tactic(auto)]

pub mod laws;
