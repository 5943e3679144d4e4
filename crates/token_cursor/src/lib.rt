//! Reading a token list with one token ahead: a cursor over the tokens, and the loops that repeated forms of a grammar are read by.
#![tactic(auto)]

mod cursor;
mod ending;
mod held;
mod repeat;

pub use cursor::{Cursor, ParseError};
pub use ending::{EndedTurns, ended};
pub use held::{Held, discard};
pub use repeat::{keep, many, prepend, trail};
