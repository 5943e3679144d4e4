//! The tests of forms, drafts of code and the parts of lowering.
//!
//! They stand in a crate of their own, since a crate with tests is proved twice.
#![tactic(auto)]

#[cfg(test)]
mod draft_tests;
#[cfg(test)]
mod form_tests;
#[cfg(test)]
mod lowering_tests;
