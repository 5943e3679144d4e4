//! The tests of the compiler: the code of small sources, and of one that is long.
//!
//! They stand in a crate of their own, above the parser, since a crate that owns trees makes the steps of their drop.
#![tactic(auto)]

#[cfg(test)]
mod code_tests;
#[cfg(test)]
mod code_text;
#[cfg(test)]
mod steps;
