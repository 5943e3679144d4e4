//! Which nodes each place of a world may name, and what a step of another actor than 0 leaves of them.
#![tactic(auto)]

pub mod laws;
