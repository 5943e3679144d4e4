//! The tests of the text of a `print` and of its instruction.
//!
//! They stand in a crate of their own, since a crate with tests is proved twice.
#![tactic(auto)]

#[cfg(test)]
mod instruction_tests;
#[cfg(test)]
mod text_tests;
#[cfg(test)]
mod values;
