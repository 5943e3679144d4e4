//! The tests of the machine of an actor.
//!
//! They stand in a crate of their own, since a crate with tests is proved twice.
#![tactic(auto)]

#[cfg(test)]
mod action_tests;
#[cfg(test)]
mod frame_tests;
#[cfg(test)]
mod release_tests;
