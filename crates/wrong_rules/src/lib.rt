//! Rules that a run doesn't have, each with the law that it would break.
#![tactic(auto)]

pub mod laws;
