//! The values of texts.
ghost use Rattle.std.specs.Prelude.{◌≡◌, Option, None, Some, IfOk};
ghost use Rattle.std.specs.Option.{option_map};
ghost use Rattle.chan_values.specs.View.{tree_of};
ghost use Rattle.field_plans.specs.Fields.{first_value};
ghost use Rattle.field_plans.specs.Values.{value_read};

use chan_values::{NoMemory, Portable, Text};
use field_types::{AttributeAnswer, FieldType, opening, read_attribute};
use std::alloc::Global;

/// The value that a text has for a type, `None` exactly where the type doesn't read it.
///
/// Source: SceneGraph XML Reference, "interface" and "children".
pub fn read_value(alloc: Global, holds: FieldType, text: &str) -> Result<Option<Portable>, NoMemory>
    ensures { IfOk result (λ value. option_map tree_of value ≡ value_read holds text.now) }
{
    match read_attribute(alloc, holds, text.as_bytes()) {
        Ok(value) => Ok(Some(value)),
        Err(AttributeAnswer::BadText) => Ok(None),
        Err(AttributeAnswer::NoMemory) => Err(NoMemory),
    }
}

/// The value that a text gives a field before anything is set: the usual one of the type where it doesn't read the text.
pub(crate) fn opening_by(alloc: Global, holds: FieldType, text: &str) -> Result<Portable, NoMemory>
    ensures { IfOk result (λ value. tree_of value ≡ first_value holds (Some text.now)) }
{
    match read_value(alloc, holds, text)? {
        Some(value) => Ok(value),
        None => Ok(opening(alloc, holds)),
    }
}

/// The value that a field has before anything is set.
pub(crate) fn field_opening(
    alloc: Global,
    holds: FieldType,
    text: &Option<Text>,
) -> Result<Portable, NoMemory>
    ensures { IfOk result (λ value. tree_of value ≡ first_value holds text.now) }
{
    match text {
        Some(text) => opening_by(alloc, holds, text.as_str()),
        None => Ok(opening(alloc, holds)),
    }
}
