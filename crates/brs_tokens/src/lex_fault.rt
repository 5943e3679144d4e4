//! Why a source file is not spelled as BrightScript.

/// The kinds of lexical fault.
#[derive(Clone, Copy, Debug, PartialEq, Eq)]
pub enum LexKind {
    /// A byte that begins no character.
    NotUtf8,
    /// A character that begins no piece, outside texts and comments.
    BadCharacter,
    /// The opening quote of a text that doesn't end in its line.
    OpenText,
    /// A number with a decimal point or an exponent.
    FloatLiteral,
    /// A slash.
    Slash,
    /// A number that is wider than a LongInteger.
    NumberTooLarge,
}

/// The first lexical fault of a source file.
#[derive(Clone, Copy, Debug, PartialEq, Eq)]
pub struct LexFault {
    pub kind: LexKind,
    /// The line, counted from 1.
    pub line: u32,
    /// The column, counted in bytes from 1.
    pub column: u32,
}
