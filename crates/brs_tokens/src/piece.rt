//! What stands at a place of a source file.
ghost use Rattle.std.specs.Prelude.{◌≡◌, ◌<◌, ◌≤◌, ◌∷◌, ◌≢◌, ◌+◌, ◌^◌, length, false, IfSome};
ghost use Rattle.brs_tokens.specs.declared.piece.PieceKind;
ghost use Rattle.brs_tokens.specs.Classes as classes;
ghost use Rattle.brs_tokens.specs.Spelling as spec;

use crate::classes::{Class, begins_name, is_blank, is_digit, run_len};
use crate::scan::{digits_len, hex_len, sign_len, text_len};
use crate::token::TokenKind;
use crate::word::word_piece;

/// What a piece of a source file is.
#[derive(Clone, Copy, Debug, PartialEq, Eq)]
pub enum PieceKind {
    /// A space, a tab or a carriage return, which makes no token.
    Blank,
    /// A comment, which makes no token.
    Comment,
    /// A piece that makes a token.
    Token(TokenKind),
}

/// A piece of a source file.
#[derive(Clone, Copy, Debug, PartialEq, Eq)]
pub struct Piece {
    pub kind: PieceKind,
    /// Its length in bytes, at least 1.
    pub len: usize,
}

/// The longest piece that begins where the bytes begin.
pub(crate) fn longest_piece(bytes: &[u8]) -> Option<Piece>
    ensures piece { result ≡ spec.longest_piece bytes.now }
    ensures some { IfSome result (λ piece. 0 < piece.len) }
    ensures within { IfSome result (λ piece. piece.len ≤ length bytes.now) }
{
    let [first, more @ ..] = bytes else {
        return None;
    };
    let first = *first;
    if is_blank(first) {
        Some(Piece {
            kind: PieceKind::Blank,
            len: 1,
        })
    } else if first == b'\n' {
        Some(Piece {
            kind: PieceKind::Token(TokenKind::Newline),
            len: 1,
        })
    } else if first == b'\'' {
        Some(Piece {
            kind: PieceKind::Comment,
            len: 1 + run_len(more, Class::LineByte),
        })
    } else if begins_name(first) {
        Some(word_piece(bytes))
    } else {
        number_text_or_sign(bytes, first, more)
    }
}

/// The longest number, text or sign.
fn number_text_or_sign(bytes: &[u8], first: u8, more: &[u8]) -> Option<Piece>
    requires split { bytes.now ≡ first ∷ more.now }
    requires blank { classes.is_blank first ≡ false }
    requires newline { first ≢ 10 }
    requires apostrophe { first ≢ 39 }
    requires name { classes.begins_name first ≡ false }
    ensures piece { result ≡ spec.longest_piece bytes.now }
    ensures some { IfSome result (λ piece. 0 < piece.len) }
    ensures within { IfSome result (λ piece. piece.len ≤ length bytes.now) }
{
    if is_digit(first) {
        Some(Piece {
            kind: PieceKind::Token(TokenKind::Number),
            len: 1 + digits_len(more, Class::Digit),
        })
    } else if first == b'&' {
        token_after(TokenKind::Number, hex_len(more))
    } else if first == b'"' {
        token_after(TokenKind::Text, text_len(more))
    } else {
        match sign_len(bytes) {
            0 => None,
            len => Some(Piece {
                kind: PieceKind::Token(TokenKind::Sign),
                len,
            }),
        }
    }
}

/// The token of a first byte and what follows it, if anything does.
fn token_after(kind: TokenKind, len: usize) -> Option<Piece>
    requires { len < 2 ^ 63 }
    ensures none { len ≡ 0 → result ≡ None }
    ensures some { 0 < len → result ≡ Some (record { kind = PieceKind.Token kind; len = 1 + len }) }
{
    match len {
        0 => None,
        len => Some(Piece {
            kind: PieceKind::Token(kind),
            len: 1 + len,
        }),
    }
}
