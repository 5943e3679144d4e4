//! The piece at a place, or the fault there.
ghost use Rattle.std.specs.Prelude.{◌≡◌, ◌<◌, ◌≤◌, length, IfOk};
ghost use Rattle.brs_tokens.specs.Spelling as spec;

use crate::bytes::byte_at;
use crate::classes::{Class, is_digit, run_len};
use crate::lex_fault::LexKind;
use crate::number::is_too_large;
use crate::piece::{Piece, PieceKind, longest_piece};
use crate::token::TokenKind;

/// An exponent: `e` or `d`, at most one sign, and a digit.
fn begins_exponent(bytes: &[u8]) -> bool
    ensures { result ≡ spec.begins_exponent bytes.now }
{
    let sign = byte_at(bytes, 1);
    (byte_at(bytes, 0) == b'e' || byte_at(bytes, 0) == b'd')
        && (is_digit(sign) || ((sign == b'+' || sign == b'-') && is_digit(byte_at(bytes, 2))))
}

/// Whether a number with a decimal point or an exponent begins here.
fn begins_float(bytes: &[u8]) -> bool
    ensures { result ≡ spec.begins_float bytes.now }
{
    let digits = run_len(bytes, Class::Digit);
    let after = &bytes[digits..];
    (byte_at(after, 0) == b'.' && is_digit(byte_at(after, 1)))
        || (0 < digits && begins_exponent(after))
}

/// Why no piece begins with this byte.
fn stray_kind(b: u8) -> LexKind
    ensures { result ≡ spec.stray_kind b }
{
    match b {
        b'/' => LexKind::Slash,
        b'"' => LexKind::OpenText,
        _ => LexKind::BadCharacter,
    }
}

fn is_number(kind: PieceKind) -> bool
    ensures { result ≡ spec.is_number kind }
{
    matches!(kind, PieceKind::Token(TokenKind::Number))
}

/// The piece where the bytes begin, or the fault there.
#[tactic(auto, unfolding(crate::specs::Spelling::piece_at))]
pub(crate) fn piece_at(bytes: &[u8]) -> Result<Piece, LexKind>
    ensures piece { result ≡ spec.piece_at bytes.now }
    ensures some { IfOk result (λ piece. 0 < piece.len) }
    ensures within { IfOk result (λ piece. piece.len ≤ length bytes.now) }
{
    if begins_float(bytes) {
        return Err(LexKind::FloatLiteral);
    }
    match longest_piece(bytes) {
        None => Err(stray_kind(byte_at(bytes, 0))),
        Some(piece) => {
            if is_number(piece.kind) && is_too_large(&bytes[..piece.len]) {
                Err(LexKind::NumberTooLarge)
            } else {
                Ok(piece)
            }
        }
    }
}
