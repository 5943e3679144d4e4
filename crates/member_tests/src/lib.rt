//! The tests of the instructions of members and indexes.
//!
//! They stand in a crate of their own, since a crate with tests is proved twice.
#![tactic(auto)]

#[cfg(test)]
mod member_tests;
