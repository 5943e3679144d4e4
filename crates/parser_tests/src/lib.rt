//! The tests of the parser: good and faulty sources and whole trees, for each form of the language.
//!
//! They stand in a crate of their own, since a crate with tests is proved twice.
#![tactic(auto)]

#[cfg(test)]
mod expression_tests;
#[cfg(test)]
mod file_tests;
#[cfg(test)]
mod statement_tests;
#[cfg(test)]
mod test_sources;
#[cfg(test)]
mod tree_tests;
#[cfg(test)]
mod tree_text;
