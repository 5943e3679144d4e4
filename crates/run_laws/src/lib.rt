//! All laws of every run in one statement, which a call that runs a channel can cite.
#![tactic(auto)]

pub mod laws;
