//! The tests of nodes and of the focus.
//!
//! They stand in a crate of their own, since a crate with tests is proved twice.
#![tactic(auto)]

#[cfg(test)]
mod family_tests;
#[cfg(test)]
mod field_tests;
#[cfg(test)]
mod focus_tests;
#[cfg(test)]
mod gift_tests;
#[cfg(test)]
mod kinds;
#[cfg(test)]
mod making_tests;
#[cfg(test)]
mod nodes;
#[cfg(test)]
mod plans;
