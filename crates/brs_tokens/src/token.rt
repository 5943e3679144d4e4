//! A token.

/// What a token is.
#[derive(Clone, Copy, Debug, PartialEq, Eq)]
pub enum TokenKind {
    /// The end of a line.
    Newline,
    Name,
    Keyword,
    Number,
    /// A text with its quotes.
    Text,
    Sign,
}

/// A piece of a source file, which borrows its bytes from the file.
#[derive(Clone, Copy, Debug)]
pub struct Token<'a> {
    pub kind: TokenKind,
    /// The bytes of the piece as written.
    pub slice: &'a [u8],
    /// The line, counted from 1.
    pub line: u32,
    /// The column of the first byte, counted in bytes from 1.
    pub column: u32,
}
