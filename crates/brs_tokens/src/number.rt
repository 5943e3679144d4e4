//! What a number is worth.
ghost use Rattle.std.specs.Prelude.{◌≡◌, ◌<◌, ◌≤◌, ◌^◌, nat_le};
ghost use Rattle.std.specs.Option.{SomeIff};
ghost use Rattle.std.specs.Char.{digit_value};
ghost use Rattle.std.specs.Str.Parse.{digits_value};
ghost use Rattle.brs_tokens.specs.Numbers as spec;

use crate::bytes::byte_at;
use crate::classes::{Class, run_len};

/// What a number is worth, with its width.
#[derive(Clone, Copy, Debug, PartialEq, Eq)]
pub enum NumberValue {
    Integer(i32),
    LongInteger(i64),
}

/// The value of a digit, where a letter of either case is 10 or more.
fn digit_value(b: u8) -> u8
    ensures { result ≡ digit_value b }
{
    match b {
        b'0'..=b'9' => b - b'0',
        b'A'..=b'Z' => b - b'A' + 10,
        b'a'..=b'z' => b - b'a' + 10,
        _ => 36,
    }
}

/// The number that the digits write, `None` exactly where 64 bits don't hold it.
fn digits_value(digits: &[u8], radix: u64) -> Option<u64>
    requires low { 1 ≤ radix }
    ensures { SomeIff result (digits_value radix digits.now < 2 ^ 64) (digits_value radix digits.now) }
{
    let mut value = 0u64;
    for b in digits {
        let digit = u64::from(digit_value(*b));
        let Some(shifted) = value.checked_mul(radix) else {
            return None;
        };
        let Some(sum) = shifted.checked_add(digit) else {
            return None;
        };
        value = sum;
    }
    Some(value)
}

fn is_hexadecimal(number: &[u8]) -> bool
    ensures { result ≡ spec.is_hexadecimal number.now }
{
    byte_at(number, 0) == b'&'
}

/// The digits without what stands round them.
fn digits_of(number: &[u8]) -> &[u8]
    ensures { result.now ≡ spec.digits_of number.now }
{
    match number {
        [b'&', _, digits @ ..] => &digits[..run_len(digits, Class::HexDigit)],
        [b'&', none @ ..] => none,
        digits => &digits[..run_len(digits, Class::Digit)],
    }
}

/// The number without regard to its width, `None` exactly where 64 bits don't hold it.
fn magnitude(number: &[u8]) -> Option<u64>
    ensures { SomeIff result (spec.magnitude number.now < 2 ^ 64) (spec.magnitude number.now) }
{
    digits_value(
        digits_of(number),
        if is_hexadecimal(number) { 16 } else { 10 },
    )
}

/// Whether the number is wider than a LongInteger.
pub(crate) fn is_too_large(number: &[u8]) -> bool
    ensures { result ≡ spec.is_too_large number.now }
{
    match magnitude(number) {
        Some(value) => !is_hexadecimal(number) && value > 0x7FFF_FFFF_FFFF_FFFF,
        None => true,
    }
}

/// Whether the number without regard to its width is at most this.
pub(crate) fn is_at_most(number: &[u8], most: u64) -> bool
    ensures { result ≡ nat_le (spec.magnitude number.now) most }
{
    match magnitude(number) {
        Some(value) => value <= most,
        None => false,
    }
}

/// Whether the number ends with `&`.
fn is_marked(number: &[u8]) -> bool
    ensures { result ≡ spec.is_marked number.now }
{
    byte_at(number, number.len().saturating_sub(1)) == b'&'
}

/// What a number is worth, as its bytes spell it. `None` exactly where it is too large.
///
/// Takes no memory. Source: BrightScript Language Reference, "Literals (Constants)".
pub fn number_value(number: &[u8]) -> Option<NumberValue>
    ensures { result ≡ spec.number_value number.now }
{
    let hexadecimal = is_hexadecimal(number);
    let value = magnitude(number)?;
    if !hexadecimal && value > 0x7FFF_FFFF_FFFF_FFFF {
        return None;
    }
    let most = if hexadecimal {
        0xFFFF_FFFF
    } else {
        0x7FFF_FFFF
    };
    if !is_marked(number) && value <= most {
        Some(NumberValue::Integer((value as u32).cast_signed()))
    } else {
        Some(NumberValue::LongInteger(value.cast_signed()))
    }
}
