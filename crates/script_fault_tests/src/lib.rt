//! The tests of the faults of scripts and functions, of the order of all kinds of faults, and of the tables of kinds.
//!
//! They stand in a crate of their own, since a crate with tests is proved twice.
#![tactic(auto)]

#[cfg(test)]
mod chains;
#[cfg(test)]
mod checks;
#[cfg(test)]
mod folders;
#[cfg(test)]
mod order_tests;
#[cfg(test)]
mod table_tests;
#[cfg(test)]
mod tests;
