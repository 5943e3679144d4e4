//! How long the longest number, text or sign at the front of the bytes is.
ghost use Rattle.std.specs.Prelude.{◌≡◌, ◌≤◌, [], ◌∷◌, length, codes};
ghost use Rattle.brs_tokens.specs.Classes.{is_among};
ghost use Rattle.brs_tokens.specs.Pieces as pieces;
ghost use Rattle.brs_tokens.specs.Lengths as spec;
ghost use Rattle.brs_tokens.specs.Lengths.{class_test};

use crate::classes::{Class, is_hex_digit, run_len};

/// Digits, and one `&` if it follows.
pub(crate) fn digits_len(bytes: &[u8], class: Class) -> usize
    ensures len { result ≡ spec.digits_len (class_test class) bytes.now }
    ensures within { result ≤ length bytes.now }
{
    let len = run_len(bytes, class);
    if len < bytes.len() && bytes[len] == b'&' {
        len + 1
    } else {
        len
    }
}

/// What follows the `&` of a hexadecimal number, or 0.
pub(crate) fn hex_len(bytes: &[u8]) -> usize
    ensures len { result ≡ spec.hex_len bytes.now }
    ensures within { result ≤ length bytes.now }
{
    match bytes {
        [b'h' | b'H', digit, more @ ..] if is_hex_digit(*digit) => {
            2 + digits_len(more, Class::HexDigit)
        }
        _ => 0,
    }
}

/// What follows the opening quote of a text, or 0.
pub(crate) fn text_len(bytes: &[u8]) -> usize
    ensures len { result ≡ spec.text_len bytes.now }
    ensures within { result ≤ length bytes.now }
{
    let mut at = 0;
    let mut found = 0;
    while at < bytes.len() {
        if bytes[at] == b'"' {
            found = at + 1;
            if at + 1 < bytes.len() && bytes[at + 1] == b'"' {
                at += 2;
            } else {
                return found;
            }
        } else if bytes[at] == b'\n' {
            return found;
        } else {
            at += 1;
        }
    }
    found
}

#[tactic(auto, unfolding(crate::specs::Pieces::is_sign))]
fn is_single_sign(b: u8) -> bool
    ensures { result ≡ pieces.is_sign (b ∷ []) }
{
    matches!(
        b,
        b'+' | b'-'
            | b'*'
            | b'\\'
            | b'='
            | b'<'
            | b'>'
            | b'('
            | b')'
            | b'['
            | b']'
            | b'{'
            | b'}'
            | b','
            | b':'
            | b';'
            | b'.'
            | b'?'
    )
}

#[tactic(auto, unfolding(crate::specs::Pieces::is_sign))]
fn is_double_sign(b: u8, c: u8) -> bool
    ensures { result ≡ pieces.is_sign (b ∷ c ∷ []) }
{
    match c {
        b'=' => b == b'<' || b == b'>' || b == b'+' || b == b'-' || b == b'*' || b == b'\\',
        b'<' => b == b'<',
        b'>' => b == b'<' || b == b'>',
        b'+' => b == b'+',
        b'-' => b == b'-',
        _ => false,
    }
}

/// One sign of two bytes or of one, or 0.
pub(crate) fn sign_len(bytes: &[u8]) -> usize
    ensures len { result ≡ spec.sign_len bytes.now }
    ensures within { result ≤ length bytes.now }
{
    match bytes {
        [b, c, ..] if is_double_sign(*b, *c) => 2,
        [b, ..] if is_single_sign(*b) => 1,
        _ => 0,
    }
}
