//! The tests of the faults of a channel's components, and of their order.
//!
//! They stand in a crate of their own, since a crate with tests is proved twice.
#![tactic(auto)]

#[cfg(test)]
mod channels;
#[cfg(test)]
mod cycle_tests;
#[cfg(test)]
mod field_tests;
#[cfg(test)]
mod kind_tests;
#[cfg(test)]
mod order_tests;
