//! A piece of an XML text.

use chan_values::Text;
use sqlite_items::Items;

/// An attribute of a tag. The name is as written, and in the value each reference is read.
#[derive(Debug, Drop)]
pub struct AttributeText {
    pub name: Text,
    pub value: Text,
}

/// What a start tag or an empty tag says, with its attributes in the order in which they are written.
#[derive(Debug, Drop)]
pub struct Tag {
    pub name: Text,
    pub attributes: Items<AttributeText>,
}

/// A piece of an XML text.
#[derive(Debug, Drop)]
pub enum Piece {
    /// A piece that begins with `<?xml`.
    Declaration,
    Comment,
    /// A CDATA section, with what it holds.
    Data(Text),
    Start(Tag),
    Empty(Tag),
    /// An end tag, with its name.
    End(Text),
    /// Text that is white space.
    Blank,
    /// Text that is not white space.
    Stray,
}
