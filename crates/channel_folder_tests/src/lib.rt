//! The tests of the check of a channel's folder.
//!
//! They stand in a crate of their own, since a crate with tests is proved twice.
#![tactic(auto)]

#[cfg(test)]
mod folder_tests;
#[cfg(test)]
mod folders;
#[cfg(test)]
mod kind_tests;
