//! What the literals are worth.
ghost use Rattle.std.specs.Prelude.{◌≡◌, IfOk, IsUtf8};
ghost use Rattle.std.specs.Str.{is_utf8};
ghost use Rattle.chan_values.specs.Folded.{folded};
ghost use Rattle.brs_forms.specs.Words as spec;

use brs_tokens::{NumberValue, number_value, text_value};
use chan_values::{NoMemory, Text, fold_name};
use std::alloc::Global;

#[tactic(auto, using(crate::proofs::Utf8::is_text, crate::proofs::Utf8::is_no_text))]
fn is_text(bytes: &[u8]) -> bool
    ensures { result ≡ is_utf8 bytes.now }
{
    match str::from_utf8(bytes) {
        Ok(_) => true,
        Err(_) => false,
    }
}

fn plain_text(alloc: Global, bytes: &[u8]) -> Result<Text, NoMemory>
    requires { IsUtf8 bytes.now }
    ensures { IfOk result (λ t. t ≡ bytes.now) }
{
    let Ok(piece) = str::from_utf8(bytes) else {
        unreachable!()
    };
    let mut text = Text::new(alloc);
    text.push_str(piece)?;
    Ok(text)
}

/// The bytes as a text, which is empty where they are no UTF-8.
#[tactic(auto, using(crate::proofs::Utf8::from_text))]
pub fn readable_text(alloc: Global, bytes: &[u8]) -> Result<Text, NoMemory>
    ensures { IfOk result (λ t. t ≡ spec.readable bytes.now) }
{
    if is_text(bytes) {
        plain_text(alloc, bytes)
    } else {
        Ok(Text::new(alloc))
    }
}

/// The characters between the quotes of a text that is written with them, where `""` stands for one quote.
///
/// Source: BrightScript Language Reference, "Literals (Constants)".
#[tactic(auto, using(crate::proofs::Utf8::from_text))]
pub fn text_of(alloc: Global, quoted: &[u8]) -> Result<Text, NoMemory>
    ensures { IfOk result (λ t. t ≡ spec.text_of quoted.now) }
{
    if is_text(quoted) {
        text_value(alloc, quoted)
    } else {
        Ok(Text::new(alloc))
    }
}

/// A key that is written with quotes, without them and folded.
///
/// Source: BrightScript Language Reference, "Associative Array literals".
pub fn key_text(alloc: Global, quoted: &[u8]) -> Result<Text, NoMemory>
    ensures { IfOk result (λ t. t ≡ folded (spec.text_of quoted.now)) }
{
    let text = text_of(alloc, quoted)?;
    fold_name(alloc, text.as_str().as_bytes())
}

/// What a number is worth. One that is too large for 64 bits, which no tree of a source file has, counts as 0. Takes no memory.
///
/// Source: BrightScript Language Reference, "Literals (Constants)".
pub fn number_of(number: &[u8]) -> NumberValue
    ensures { result ≡ spec.number_of number.now }
{
    match number_value(number) {
        Some(value) => value,
        None => NumberValue::Integer(0),
    }
}
