//! The tests of what the world keeps beside nodes: field types, observers, message ports and the inbox of render.
//!
//! They stand in a crate of their own, since a crate with tests is proved twice.
#![tactic(auto)]

#[cfg(test)]
mod inbox_tests;
#[cfg(test)]
mod observer_tests;
#[cfg(test)]
mod port_tests;
#[cfg(test)]
mod type_tests;
