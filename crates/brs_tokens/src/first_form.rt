//! The source files of the first form: assignments and prints of sums.
ghost use Rattle.std.specs.Prelude.{◌≡◌, ◌^◌, ◌<◌, ◌↔◌, length, IsTrue, IsSome, IfOk, IfSome, Ok, ℕ};
ghost use Rattle.std.specs.List.{list_all};
ghost use Rattle.brs_tokens.specs.Classes.{is_digit};
ghost use Rattle.brs_tokens.specs.FirstForm as spec;
ghost use Rattle.brs_tokens.specs.Spelling.{spelling};

use crate::bytes::byte_at;
use crate::classes::{begins_name, is_digit};
use crate::lexer::{LexAnswer, lex};
use crate::number::is_at_most;
use crate::piece::{PieceKind, longest_piece};
use crate::token::TokenKind;
use crate::token_list::TokenList;
use chan_values::NoMemory;
use std::alloc::Global;

fn is_plain(b: u8) -> bool
    ensures { result ≡ spec.is_plain b }
{
    b == b'\t' || b == b'\n' || b == b'\r' || (b >= 32 && b <= 126)
}

fn are_plain(bytes: &[u8]) -> bool
    ensures { result ≡ list_all (λ b. spec.is_plain b) bytes.now }
{
    bytes.iter().all(|b| is_plain(*b))
}

fn are_digits(bytes: &[u8]) -> bool
    ensures { result ≡ list_all (λ b. is_digit b) bytes.now }
{
    bytes.iter().all(|b| is_digit(*b))
}

fn is_first_number(number: &[u8], next: u8) -> bool
    ensures { result ≡ spec.is_first_number number.now next }
{
    are_digits(number) && is_at_most(number, 2_147_483_647) && !begins_name(next)
}

fn is_text_byte(b: u8) -> bool
    ensures { result ≡ spec.is_text_byte b }
{
    b >= 32 && b <= 126 && b != b'"' && b != b'\\'
}

fn are_text_bytes(bytes: &[u8]) -> bool
    ensures { result ≡ list_all (λ b. spec.is_text_byte b) bytes.now }
{
    bytes.iter().all(|b| is_text_byte(*b))
}

fn is_first_text(text: &[u8], next: u8) -> bool
    ensures { result ≡ spec.is_first_text text.now next }
{
    let inner = match text {
        [_, inner @ .., _] => inner,
        _ => return false,
    };
    are_text_bytes(inner) && next != b'"'
}

fn is_first_sign(sign: &[u8], next: u8) -> bool
    ensures { result ≡ spec.is_first_sign sign.now next }
{
    match sign {
        [b'+' | b'-'] => next != b'+' && next != b'-' && next != b'=',
        [b'=' | b';' | b'(' | b')'] => true,
        _ => false,
    }
}

fn is_first_piece(kind: PieceKind, slice: &[u8], next: u8) -> bool
    ensures { result ≡ spec.is_first_piece kind slice.now next }
{
    match kind {
        PieceKind::Blank => true,
        PieceKind::Comment => false,
        PieceKind::Token(TokenKind::Newline | TokenKind::Name | TokenKind::Keyword) => true,
        PieceKind::Token(TokenKind::Number) => is_first_number(slice, next),
        PieceKind::Token(TokenKind::Text) => is_first_text(slice, next),
        PieceKind::Token(TokenKind::Sign) => is_first_sign(slice, next),
    }
}

fn are_first_pieces(src: &[u8]) -> bool
    ensures { result ≡ spec.are_first_pieces 0 src.now }
{
    let mut rest = src;
    'pieces: while !rest.is_empty() {
        let Some(piece) = longest_piece(rest) else {
            return false;
        };
        let (slice, more) = rest.split_at(piece.len);
        if !is_first_piece(piece.kind, slice, byte_at(rest, piece.len)) {
            return false;
        }
        rest = more;
    }
    true
}

/// The tokens of a source file whose bytes, texts, numbers, signs and names are those of the first form, and `None` for any other.
///
/// The first form has one `main` of assignments and prints of sums.
pub fn lex_first(alloc: Global, src: &[u8]) -> Result<Option<TokenList<'_>>, NoMemory>
    requires { length src.now < 2 ^ 31 }
    ensures first { IfOk result (λ tokens. IsSome tokens ↔ IsTrue (spec.is_first_form src.now)) }
    ensures tokens { IfOk result (λ tokens. IfSome tokens (λ list. spelling src.now 1 ≡ Ok list)) }
{
    if !are_plain(src) || !are_first_pieces(src) {
        return Ok(None);
    }
    match lex(alloc, src, 1) {
        Ok(tokens) => Ok(Some(tokens)),
        Err(LexAnswer::NoMemory) => Err(NoMemory),
        Err(LexAnswer::Fault(_)) => unreachable!(),
    }
}
