//! The tests of script lines, transcript and report lines, and requests over the network.
//!
//! They stand in a crate of their own, since a crate with tests is proved twice.
#![tactic(auto)]

#[cfg(test)]
mod request_tests;
#[cfg(test)]
mod script_tests;
#[cfg(test)]
mod trace_tests;
