//! The tests of what lies outside, in its forms in memory, and of whole runs over them.
//!
//! They stand in a crate of their own, since a crate with tests is proved twice.
#![tactic(auto)]

#[cfg(test)]
mod check_tests;
#[cfg(test)]
mod door_tests;
#[cfg(test)]
mod outcomes;
#[cfg(test)]
mod outside_tests;
#[cfg(test)]
mod run_tests;
