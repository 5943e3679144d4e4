//! The escapes of a text that is written in a line.
ghost use Rattle.std.specs.Prelude.{◌≡◌, ◌<◌, ◌++◌, IfOk, OnOk, encode_utf8};
ghost use Rattle.std.specs.Char.{digit_char};
ghost use Rattle.std.specs.List.{flat_map};
ghost use Rattle.chan_values.specs.Escape.{escaped, escaped_byte};

use crate::{NoMemory, Text};
use std::alloc::Global;

/// The hexadecimal digit that writes a number below 16.
fn hexadecimal_digit(n: u32) -> char
    requires { n < 16 }
    ensures { result ≡ digit_char n }
{
    match char::from_digit(n, 16) {
        Some(digit) => digit,
        None => '0',
    }
}

fn push_escaped(c: char, out: &mut Text) -> Result<(), NoMemory>
    ensures { OnOk result (out.new ≡ out.old ++ flat_map escaped_byte (encode_utf8 c)) }
{
    let code = u32::from(c);
    if code < 32 || code == 127 || c == '\\' {
        out.push('\\')?;
        out.push(hexadecimal_digit(code / 16))?;
        return out.push(hexadecimal_digit(code % 16));
    }
    out.push(c)
}

/// The text with its escapes: a byte below 32, 127 and `\` stand as `\` and two lower-case hexadecimal digits.
pub fn escape_text(alloc: Global, t: &str) -> Result<Text, NoMemory>
    ensures { IfOk result (λ text. text ≡ escaped t.now) }
{
    let mut text = Text::new(alloc);
    for c in t.chars() {
        push_escaped(c, &mut text)?;
    }
    Ok(text)
}
