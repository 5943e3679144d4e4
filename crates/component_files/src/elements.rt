//! What the tags of a component file say.
ghost use Rattle.std.specs.Prelude.{◌≡◌, IfOk};
ghost use Rattle.component_files.specs.Elements as spec;
ghost use Rattle.xml_pieces.specs.Reads.{Answers};

use crate::attributes::{has_attribute, is_text, needed, value_of};
use crate::element::{ComponentFile, FieldElement, FunctionElement, ScriptElement};
use crate::place::Place;
use chan_values::{NoMemory, Text};
use sqlite_items::Items;
use std::alloc::Global;
use xml_pieces::{ReadError, Tag};

/// The component that a file extends that names none.
fn group(alloc: Global) -> Result<Text, NoMemory>
    ensures { IfOk result (λ t. t ≡ spec.group) }
{
    let mut name = Text::new(alloc);
    name.push_str("Group")?;
    Ok(name)
}

/// What a component's tag says.
#[tactic(auto, unfolding(crate::specs::Elements::header))]
pub(crate) fn header(alloc: Global, tag: &Tag, place: Place) -> Result<ComponentFile, ReadError>
    ensures { Answers (spec.header tag.now place) result }
{
    let name = needed(alloc, tag.attributes.as_slice(), b"name")?;
    let extends = match value_of(alloc, tag.attributes.as_slice(), b"extends")? {
        Some(extends) => extends,
        None => group(alloc)?,
    };
    Ok(ComponentFile {
        name,
        extends,
        fields: Items::new(alloc),
        functions: Items::new(alloc),
        scripts: Items::new(alloc),
        children: Items::new(alloc),
        line: place.line,
        column: place.column,
    })
}

/// A truth value that is written out, false where there is none.
fn truth(value: Option<Text>) -> Result<bool, ReadError>
    ensures { Answers (spec.truth value) result }
{
    match value {
        None => Ok(false),
        Some(text) => {
            if is_text(&text, b"true") {
                Ok(true)
            } else if is_text(&text, b"false") {
                Ok(false)
            } else {
                Err(ReadError::Fault)
            }
        }
    }
}

/// What a field's tag says.
#[tactic(auto, unfolding(crate::specs::Elements::field))]
pub(crate) fn field(alloc: Global, tag: &Tag, place: Place) -> Result<FieldElement, ReadError>
    ensures { Answers (spec.field tag.now place) result }
{
    let attributes = tag.attributes.as_slice();
    let id = needed(alloc, attributes, b"id")?;
    let word = needed(alloc, attributes, b"type")?;
    let notify = value_of(alloc, attributes, b"alwaysNotify")?;
    let always = truth(notify)?;
    if has_attribute(attributes, b"alias") {
        return Err(ReadError::Fault);
    }
    let value = value_of(alloc, attributes, b"value")?;
    let on_change = value_of(alloc, attributes, b"onChange")?;
    Ok(FieldElement {
        id,
        word,
        value,
        always,
        on_change,
        line: place.line,
        column: place.column,
    })
}

/// What a function's tag says.
#[tactic(auto, unfolding(crate::specs::Elements::function))]
pub(crate) fn function(alloc: Global, tag: &Tag, place: Place) -> Result<FunctionElement, ReadError>
    ensures { Answers (spec.function tag.now place) result }
{
    let name = needed(alloc, tag.attributes.as_slice(), b"name")?;
    Ok(FunctionElement {
        name,
        line: place.line,
        column: place.column,
    })
}

/// What a script's tag says.
pub(crate) fn script(alloc: Global, tag: &Tag, place: Place) -> Result<ScriptElement, NoMemory>
    ensures { IfOk result (λ s. s ≡ spec.script tag.now place) }
{
    Ok(ScriptElement {
        uri: value_of(alloc, tag.attributes.as_slice(), b"uri")?,
        inline: None,
        line: place.line,
        column: place.column,
    })
}
