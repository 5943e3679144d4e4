//! The values of attributes in component files.
ghost use Rattle.std.specs.Prelude.{IsUtf8};
ghost use Rattle.field_types.specs.Attribute.{Answers};

use crate::FieldType;
use crate::types::{is_alike, opening};
use chan_values::{Portable, Text};
use std::alloc::Global;

/// Why an attribute has no value.
#[derive(Clone, Copy, Debug, PartialEq, Eq)]
pub enum AttributeAnswer {
    /// The text is none of the field's type.
    BadText,
    NoMemory,
}

fn read_integer(text: &str) -> Result<Portable, AttributeAnswer>
    ensures { Answers FieldType.Integer text.now result }
{
    match text.parse::<i32>() {
        Ok(n) => Ok(Portable::Small(n)),
        Err(_) => Err(AttributeAnswer::BadText),
    }
}

fn read_long_integer(text: &str) -> Result<Portable, AttributeAnswer>
    ensures { Answers FieldType.LongInteger text.now result }
{
    match text.parse::<i64>() {
        Ok(n) => Ok(Portable::Big(n)),
        Err(_) => Err(AttributeAnswer::BadText),
    }
}

fn read_boolean(text: &str) -> Result<Portable, AttributeAnswer>
    ensures { Answers FieldType.Boolean text.now result }
{
    if is_alike(b"true", text.as_bytes()) {
        return Ok(Portable::Truth(true));
    }
    if is_alike(b"false", text.as_bytes()) {
        return Ok(Portable::Truth(false));
    }
    Err(AttributeAnswer::BadText)
}

fn read_string(alloc: Global, text: &str) -> Result<Portable, AttributeAnswer>
    ensures { Answers FieldType.String text.now result }
{
    let mut words = Text::new(alloc);
    match words.push_str(text) {
        Ok(()) => Ok(Portable::Words(words)),
        Err(_) => Err(AttributeAnswer::NoMemory),
    }
}

/// The value that the text of an attribute gives a field of the type. A number is a sign, if there is one, and decimal
/// digits. A Boolean is `true` or `false` in any case of the letters. The types without such texts read the empty text
/// alone, which gives the opening value.
///
/// Source: SceneGraph XML Reference, "interface" and "children".
pub fn read_attribute(
    alloc: Global,
    t: FieldType,
    bytes: &[u8],
) -> Result<Portable, AttributeAnswer>
    requires { IsUtf8 bytes.now }
    ensures { Answers t bytes.now result }
{
    let Ok(text) = str::from_utf8(bytes) else {
        unreachable!()
    };
    match t {
        FieldType::Integer => read_integer(text),
        FieldType::LongInteger => read_long_integer(text),
        FieldType::Boolean => read_boolean(text),
        FieldType::String => read_string(alloc, text),
        _ => {
            if text.is_empty() {
                Ok(opening(alloc, t))
            } else {
                Err(AttributeAnswer::BadText)
            }
        }
    }
}
