//! The pieces of an XML text: `<?xml` pieces, comments, CDATA sections, tags, and the text between them.
//!
//! A `Cursor` takes one piece at a time off the front of a text. What the pieces say together is for the crates above.
#![tactic(auto)]

mod bytes;
mod cursor;
mod laws;
mod name_set;
mod names;
mod part;
mod piece;
mod read_error;
mod texts;

pub use bytes::strip;
pub use cursor::Cursor;
pub use laws::{read_pieces_were_written, written_pieces_are_read};
pub use name_set::NameSet;
pub use part::Part;
pub use piece::{AttributeText, Piece, Tag};
pub use read_error::ReadError;
