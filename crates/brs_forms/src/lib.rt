//! What the words of a tree are worth: numbers, texts, keys, and names without regard to case.
//!
//! A tree owns its words as bytes. Those of a tree that was read from a source file are UTF-8. Bytes that aren't count as the empty
//! text, so that every tree has a meaning.
#![tactic(auto)]

mod names;
mod texts;

pub use names::{folded_bytes, is_m};
pub use texts::{key_text, number_of, readable_text, text_of};
