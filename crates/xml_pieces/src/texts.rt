//! Bytes that are UTF-8, and the characters that numbers stand for.
ghost use Rattle.std.specs.Prelude.{◌≡◌, ◌≤◌, ◌<◌};
ghost use Rattle.std.specs.Str.{is_utf8};
ghost use Rattle.xml_pieces.specs.Reading as reading;
ghost use Rattle.xml_pieces.specs.Reads.{Answers};
ghost use Rattle.xml_pieces.specs.Written.{digit};

use crate::read_error::ReadError;
use chan_values::Text;
use std::alloc::Global;

/// The greatest number that a character has.
const LAST_CHAR: u32 = 0x10_FFFF;

/// Whether the bytes are UTF-8.
pub(crate) fn is_utf8(bytes: &[u8]) -> bool
    ensures { result ≡ is_utf8 bytes.now }
{
    match str::from_utf8(bytes) {
        Ok(_) => true,
        Err(_) => false,
    }
}

/// The bytes as a text, which they have to be.
pub(crate) fn text_of(alloc: Global, bytes: &[u8]) -> Result<Text, ReadError>
    ensures { Answers (reading.text_at bytes.now) result }
{
    match str::from_utf8(bytes) {
        Ok(read) => {
            let mut text = Text::new(alloc);
            text.push_str(read)?;
            Ok(text)
        }
        Err(_) => Err(ReadError::Fault),
    }
}

/// What a digit stands for.
fn digit(b: u8) -> u32
    ensures value { result ≡ digit b }
    ensures small { result < 256 }
{
    let place = if b <= b'9' {
        b.saturating_sub(48)
    } else if b <= b'F' {
        b.saturating_sub(55)
    } else {
        b.saturating_sub(87)
    };
    u32::from(place)
}

/// The radix of a reference by number.
fn radix(is_hexadecimal: bool) -> u32
    ensures value { result ≡ reading.radix is_hexadecimal }
    ensures some { 10 ≤ result }
    ensures small { result ≤ 16 }
{
    if is_hexadecimal { 16 } else { 10 }
}

/// The character whose number the digits write, if one has it. Any number of zeros may stand in front.
#[tactic(auto, unfolding(crate::specs::Reading::char_of))]
pub(crate) fn char_of(mut digits: &[u8], is_hexadecimal: bool) -> Option<char>
    ensures { result ≡ reading.char_of (reading.radix is_hexadecimal) digits.entry.now }
{
    let radix = radix(is_hexadecimal);
    let mut code = 0;
    while let [b, more @ ..] = digits {
        code = code * radix + digit(*b);
        if code > LAST_CHAR {
            return None;
        }
        digits = more;
    }
    char::from_u32(code)
}
