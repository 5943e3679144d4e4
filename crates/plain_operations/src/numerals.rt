//! Numbers and Booleans as texts, and texts as numbers.
ghost use Rattle.std.specs.Prelude.{◌≡◌, ◌==◌, ◌-◌, pos, ◌+ℤ◌, ◌*ℤ◌, neg_ℤ, drop, IfOk, IsTrue};
ghost use Rattle.std.specs.Char.{is_ascii_digit};
ghost use Rattle.std.specs.List.{prefix_len};
ghost use Rattle.std.specs.Int.{w32, int_wrap};
ghost use Rattle.std.specs.Fmt.{signed_decimal};
ghost use Rattle.plain_operations.specs.Texts as spec;

use chan_values::{NoMemory, Text};
use std::alloc::Global;

/// A count as an Integer, which wraps.
pub fn count_integer(n: usize) -> i32
    ensures { result ≡ int_wrap w32 (pos n) }
{
    ((n % 0x1_0000_0000) as u32).cast_signed()
}

pub fn decimal_text(alloc: Global, n: i64) -> Result<Text, NoMemory>
    ensures { IfOk result (λ t. t ≡ signed_decimal n) }
{
    match n.to_string(alloc) {
        Ok(string) => Ok(Text::from_string(string)),
        Err(_) => Err(NoMemory),
    }
}

/// Decimal, with a space in the place of a minus.
pub fn spaced_decimal(alloc: Global, n: i64) -> Result<Text, NoMemory>
    ensures { IfOk result (λ t. t ≡ spec.spaced_decimal n) }
{
    let decimal = decimal_text(alloc, n)?;
    if n < 0 {
        return Ok(decimal);
    }
    let mut text = Text::new(alloc);
    text.push_str(" ")?;
    text.push_str(decimal.as_str())?;
    Ok(text)
}

pub fn truth_text(alloc: Global, b: bool) -> Result<Text, NoMemory>
    ensures { IfOk result (λ t. t ≡ spec.truth_text b) }
{
    let mut text = Text::new(alloc);
    text.push_str(if b { "true" } else { "false" })?;
    Ok(text)
}

/// A number with a digit more.
fn with_digit(number: i32, digit: u8) -> i32
    requires { IsTrue (is_ascii_digit digit) }
    ensures { result ≡ int_wrap w32 (int_wrap w32 (number *ℤ pos 10) +ℤ pos (digit - 48)) }
{
    number
        .wrapping_mul(10)
        .wrapping_add(i32::from(digit - b'0'))
}

/// The number that the digits at the start write, wrapped to 32 bits.
fn leading_number(s: &[u8]) -> i32
    ensures { result ≡ int_wrap w32 (pos (spec.leading_number s.now)) }
{
    let mut number = 0;
    for digit in s {
        if !digit.is_ascii_digit() {
            return number;
        }
        number = with_digit(number, *digit);
    }
    number
}

/// The negative of the number that the digits at the start write, wrapped to 32 bits.
fn negative_number(s: &[u8]) -> i32
    ensures { result ≡ int_wrap w32 (neg_ℤ (pos (spec.leading_number s.now))) }
{
    leading_number(s).wrapping_neg()
}

fn signed_number(s: &[u8]) -> i32
    ensures { result ≡ int_wrap w32 (spec.signed_number s.now) }
{
    match s {
        [b'-', digits @ ..] => negative_number(digits),
        [b'+', digits @ ..] => leading_number(digits),
        _ => leading_number(s),
    }
}

/// The bytes behind the first spaces.
fn without_spaces(mut s: &[u8]) -> &[u8]
    ensures { result.now ≡ drop (prefix_len (λ b. b == 32) s.entry.now) s.entry.now }
{
    while let [b' ', rest @ ..] = s {
        s = rest;
    }
    s
}

/// The Integer that a text writes behind its first spaces.
pub fn number_in(s: &str) -> i32
    ensures { result ≡ spec.number_in s.now }
{
    signed_number(without_spaces(s.as_bytes()))
}
