//! What a text is worth.
ghost use Rattle.std.specs.Prelude.{◌≡◌, ◌++◌, IfOk, OnOk, OnErr, IsUtf8};
ghost use Rattle.brs_tokens.specs.Texts as spec;

use crate::bytes::byte_at;
use crate::classes::{Class, run_len};
use chan_values::{NoMemory, Text};
use std::alloc::Global;

/// Adds bytes that are a text.
fn push(value: &mut Text, bytes: &[u8]) -> Result<(), NoMemory>
    requires { IsUtf8 bytes.now }
    ensures ok { OnOk result (value.new ≡ value.old ++ bytes.now) }
    ensures err { OnErr result (value.new ≡ value.old) }
{
    let Ok(piece) = str::from_utf8(bytes) else {
        unreachable!()
    };
    value.push_str(piece)
}

/// The characters between the quotes of a text, where `""` stands for one quote. Empty where there is no opening quote.
///
/// Source: BrightScript Language Reference, "Literals (Constants)".
pub fn text_value(alloc: Global, text: &[u8]) -> Result<Text, NoMemory>
    requires { IsUtf8 text.now }
    ensures { IfOk result (λ value. value ≡ spec.text_value text.now) }
{
    let mut value = Text::new(alloc);
    if byte_at(text, 0) != b'"' {
        return Ok(value);
    }
    let mut rest = text.split_at(1).1;
    'quotes: loop {
        let len = run_len(rest, Class::Unquoted);
        let (front, more) = rest.split_at(len);
        push(&mut value, front)?;
        if byte_at(more, 1) != b'"' {
            return Ok(value);
        }
        value.push_str("\"")?;
        rest = more.split_at(2).1;
    }
}
