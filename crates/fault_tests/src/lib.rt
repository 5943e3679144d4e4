//! The tests of the faults of the files of a channel folder: good and faulty files, for each kind of fault.
//!
//! They stand in a crate of their own, since a crate with tests is proved twice.
#![tactic(auto)]

#[cfg(test)]
mod faults;
#[cfg(test)]
mod source_tests;
