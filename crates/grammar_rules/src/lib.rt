//! The words of a grammar's tokens, the relations that its rules are made of, and what it is to read them with one token ahead.
#![tactic(auto)]

mod spelling;
mod word;

pub use spelling::{is_keyword, is_name, is_word, place_of, same_word, word_of};
pub use word::Word;
