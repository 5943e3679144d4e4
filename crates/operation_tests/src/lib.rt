//! The tests of operations: over plain values, over arrays and associative arrays, and by their one table.
//!
//! They stand in a crate of their own, since a crate with tests is proved twice.
#![tactic(auto)]

#[cfg(test)]
mod bound_tests;
#[cfg(test)]
mod builtin_tests;
#[cfg(test)]
mod function_tests;
#[cfg(test)]
mod object_tests;
#[cfg(test)]
mod operator_tests;
#[cfg(test)]
mod plain_tests;
#[cfg(test)]
mod rows;
