//! The tests of component files.
//!
//! They stand in a crate of their own, since a crate with tests is proved twice.
#![tactic(auto)]

#[cfg(test)]
mod piece_tests;
#[cfg(test)]
mod tests;
#[cfg(test)]
mod writer_tests;
