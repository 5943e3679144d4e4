//! Laws of every run of every channel, whatever the script and the bound on steps.
#![tactic(auto)]

pub mod laws;
