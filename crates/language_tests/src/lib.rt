//! The tests of tokens, trees, the cursor over tokens, the first form and code.
//!
//! They stand in a crate of their own, since a crate with tests is proved twice.
#![tactic(auto)]

#[cfg(test)]
mod code_tests;
#[cfg(test)]
mod cursor_tests;
#[cfg(test)]
mod first_form_tests;
#[cfg(test)]
mod grammar_tests;
#[cfg(test)]
mod token_tests;
#[cfg(test)]
mod word_tests;
