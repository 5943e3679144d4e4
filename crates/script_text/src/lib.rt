//! The lines of a script: what each says, and how each is written.
#![tactic(auto)]

mod key_words;
mod literal;
mod number;
mod read;
mod write;

pub use literal::decoded_character;
pub use read::read_line;
pub use write::write_line;
