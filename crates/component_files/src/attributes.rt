//! The attributes of a tag.
ghost use Rattle.std.specs.Prelude.{◌≡◌, ◌++◌, IfOk, OnOk};
ghost use Rattle.component_files.specs.Elements as spec;
ghost use Rattle.xml_pieces.specs.Reads.{Answers};
ghost use Rattle.xml_pieces.specs.Written.{has_name};

use crate::element::AttributeTextList;
use chan_values::{NoMemory, Text, copy_text, fold_name};
use sqlite_items::Items;
use std::alloc::Global;
use xml_pieces::{AttributeText, NameSet, ReadError};

/// Whether two names are written the same.
pub(crate) fn same(a: &[u8], b: &[u8]) -> bool
    ensures { result ≡ spec.same a.now b.now }
{
    a == b
}

/// Whether two names differ at most in the case of their letters.
pub(crate) fn alike(a: &[u8], b: &[u8]) -> bool
    ensures { result ≡ spec.alike a.now b.now }
{
    a.eq_ignore_ascii_case(b)
}

/// Whether a text is written as these bytes.
pub(crate) fn is_text(text: &Text, bytes: &[u8]) -> bool
    ensures { result ≡ spec.same text.now bytes.now }
{
    same(text.as_str().as_bytes(), bytes)
}

/// Whether two texts differ at most in the case of their letters.
pub(crate) fn are_alike(a: &Text, b: &Text) -> bool
    ensures { result ≡ spec.alike a.now b.now }
{
    alike(a.as_str().as_bytes(), b.as_str().as_bytes())
}

/// Whether a tag has an attribute of this name.
pub(crate) fn has_attribute(attributes: &[AttributeText], name: &[u8]) -> bool
    ensures { result ≡ has_name attributes.now name.now }
{
    attributes.iter().any(|a| is_text(&a.name, name))
}

/// The value of an attribute.
pub(crate) fn value_of(
    alloc: Global,
    mut attributes: &[AttributeText],
    name: &[u8],
) -> Result<Option<Text>, NoMemory>
    ensures { IfOk result (λ v. v ≡ spec.value_of attributes.entry.now name.now) }
{
    while let [a, more @ ..] = attributes {
        if is_text(&a.name, name) {
            return Ok(Some(copy_text(alloc, &a.value)?));
        }
        attributes = more;
    }
    Ok(None)
}

/// The value of an attribute that has to be there and not to be empty.
#[tactic(auto, unfolding(crate::specs::Elements::needed))]
pub(crate) fn needed(
    alloc: Global,
    attributes: &[AttributeText],
    name: &[u8],
) -> Result<Text, ReadError>
    ensures { Answers (spec.needed attributes.now name.now) result }
{
    match value_of(alloc, attributes, name)? {
        None => Err(ReadError::Fault),
        Some(value) => {
            if is_text(&value, b"") {
                Err(ReadError::Fault)
            } else {
                Ok(value)
            }
        }
    }
}

/// Whether no two attributes have one name, case aside. A tag may have many, so each name is looked for among those behind it in a set.
pub(crate) fn are_unlike(alloc: Global, attributes: &[AttributeText]) -> Result<bool, NoMemory>
    ensures { IfOk result (λ unlike. unlike ≡ spec.are_unlike attributes.now) }
{
    let mut behind = NameSet::new(alloc);
    let mut rest = attributes;
    while let [front @ .., last] = rest {
        let name = fold_name(alloc, last.name.as_str().as_bytes())?;
        if !behind.add(name)? {
            return Ok(false);
        }
        rest = front;
    }
    Ok(true)
}

/// Whether a colon stands in a name.
fn has_colon(name: &[u8]) -> bool
    ensures { result ≡ spec.has_colon name.now }
{
    name.iter().any(|b| *b == b':')
}

/// A copy of an attribute.
fn copy_attribute(alloc: Global, a: &AttributeText) -> Result<AttributeText, NoMemory>
    ensures { IfOk result (λ made. made ≡ a.now) }
{
    Ok(AttributeText {
        name: copy_text(alloc, &a.name)?,
        value: copy_text(alloc, &a.value)?,
    })
}

/// Copies of the attributes without those whose names have a colon.
pub(crate) fn without_colons(
    alloc: Global,
    mut attributes: &[AttributeText],
) -> Result<AttributeTextList, NoMemory>
    ensures { IfOk result (λ found. found ≡ spec.without_colons attributes.entry.now) }
{
    let mut found = Items::new(alloc);
    while let [a, more @ ..] = attributes {
        if !has_colon(a.name.as_str().as_bytes()) {
            let made = copy_attribute(alloc, a)?;
            if found.push(made).is_err() {
                return Err(NoMemory);
            }
        }
        attributes = more;
    }
    Ok(found)
}
