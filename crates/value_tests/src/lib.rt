//! The tests of what a value is: portable values, the heap, and copies between them.
//!
//! They stand in a crate of their own, since a crate with tests is proved twice.
#![tactic(auto)]

#[cfg(test)]
mod copy_tests;
#[cfg(test)]
mod heap_tests;
#[cfg(test)]
mod portable_tests;
#[cfg(test)]
mod text_tests;
