//! Characters in percent-encoding.
ghost use Rattle.std.specs.Prelude.{◌≡◌, ◌≢◌, ◌↔◌, ◌++◌, ℕ, List, IfSome, IsTrue, MatchOption, Some, encode_utf8};
ghost use Rattle.std.specs.Char.{IsScalar};
ghost use Rattle.percent_encoding.specs.Percent as percent;
ghost use Rattle.script_text.specs.Literals.{escaped, escaped_byte};

use percent_encoding::{percent_decode, percent_encode_byte};

/// The character whose UTF-8 the bytes are, where they are that of one character alone.
fn only_character(bytes: &[u8]) -> Option<char>
    ensures is { IfSome result (λ c. IsScalar c × (bytes.now ≡ encode_utf8 c)) }
    ensures found { (c : ℕ) → IsScalar c → bytes.now ≡ encode_utf8 c → result ≡ Some c }
{
    let Ok(text) = str::from_utf8(bytes) else {
        return None;
    };
    let mut characters = text.chars();
    match (characters.next(), characters.next()) {
        (Some(character), None) => Some(character),
        _ => None,
    }
}

/// The one character that a text spells, where each `%` with two hexadecimal digits after it stands for a byte, and the bytes are
/// UTF-8. `None` exactly where they are not that of one character alone. Takes no memory.
pub fn decoded_character(text: &[u8]) -> Option<char>
    ensures is { IfSome result (λ c. IsScalar c × (percent.percent_decode text.now ≡ encode_utf8 c)) }
    ensures found { (c : ℕ) → IsScalar c → percent.percent_decode text.now ≡ encode_utf8 c → result ≡ Some c }
{
    let mut bytes = [0; 4];
    let mut len = 0;
    for byte in percent_decode(text) {
        if len == bytes.len() {
            return None;
        }
        bytes[len] = byte;
        len += 1;
    }
    only_character(&bytes[..len])
}

/// What follows a byte that the text begins with, as it is where it is a letter or a digit, and else escaped.
fn strip_escaped(text: &[u8], byte: u8) -> Option<&[u8]>
    ensures { MatchOption result ((rest : List ℕ) → text.now ≢ escaped_byte byte ++ rest)
        (λ rest. text.now ≡ escaped_byte byte ++ rest.now) }
{
    if byte.is_ascii_alphanumeric() {
        text.strip_prefix(&[byte])
    } else {
        text.strip_prefix(percent_encode_byte(byte).as_bytes())
    }
}

/// Whether a text is these bytes, each letter and digit as it is and any other byte escaped.
fn is_escaped(text: &[u8], bytes: &[u8]) -> bool
    ensures { IsTrue result ↔ (text.now ≡ escaped bytes.now) }
{
    let mut rest = text;
    for byte in bytes {
        match strip_escaped(rest, *byte) {
            Some(more) => rest = more,
            None => return false,
        }
    }
    rest.is_empty()
}

/// The character that a text spells, each letter and digit as it is and each other byte of its UTF-8 as `%` and two upper-case
/// hexadecimal digits.
pub(crate) fn read_character(text: &[u8]) -> Option<char>
    ensures spelled { IfSome result (λ c. IsScalar c × (text.now ≡ escaped (encode_utf8 c))) }
    ensures found { (c : ℕ) → IsScalar c → text.now ≡ escaped (encode_utf8 c) → result ≡ Some c }
{
    match decoded_character(text) {
        Some(c) if is_escaped(text, c.encode_utf8(&mut [0; 4]).as_bytes()) => Some(c),
        _ => None,
    }
}
