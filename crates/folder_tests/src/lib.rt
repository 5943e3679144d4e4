//! The tests of channel folders: their reading, at each bound and with calls that fail.
//!
//! They stand in a crate of their own, since a crate with tests is proved twice.
#![tactic(auto)]

#[cfg(test)]
mod made_tests;
#[cfg(test)]
mod reading_tests;
