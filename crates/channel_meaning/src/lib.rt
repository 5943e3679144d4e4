//! What a run of a channel is: its events, its histories, its text and its report.
#![tactic(auto)]

pub mod laws;
