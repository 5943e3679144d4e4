//! What the attributes of a child element give.
ghost use Rattle.std.specs.Prelude.{◌≡◌, [], ◌∷◌, ◌++◌, map, IfOk, OnOk};
ghost use Rattle.std.specs.List.{flat_map};
ghost use Rattle.field_types.specs.Plans.{NameNoNode};
ghost use Rattle.field_plans.specs.Attributes.{given_by, given_of};

use crate::values::read_value;
use chan_values::{NoMemory, copy_text, fold_name};
use field_faults::FieldTable;
use field_types::{AttributeList, AttributeValue};
use std::alloc::Global;
use xml_pieces::AttributeText;

/// Adds what an attribute gives, at the end.
fn push_value(values: &mut AttributeList, value: AttributeValue) -> Result<(), NoMemory>
    ensures { OnOk result (values.new ≡ values.old ++ value ∷ []) }
{
    match values.push(value) {
        Ok(()) => Ok(()),
        Err(_) => Err(NoMemory),
    }
}

/// Adds what an attribute gives, where its name is a field of the kind and the field's type reads its text.
fn push_given(
    alloc: Global,
    table: &FieldTable<'_>,
    kind: &str,
    values: &mut AttributeList,
    attribute: &AttributeText,
) -> Result<(), NoMemory>
    ensures { OnOk result (map given_of values.new ≡ map given_of values.old ++ given_by table.now kind.now attribute.now) }
{
    let name = fold_name(alloc, attribute.name.as_str().as_bytes())?;
    let Some(holds) = table.holds(kind, name.as_str()) else {
        return Ok(());
    };
    let Some(value) = read_value(alloc, holds, attribute.value.as_str())? else {
        return Ok(());
    };
    let field = copy_text(alloc, &attribute.name)?;
    push_value(values, AttributeValue { field, value })
}

/// What the attributes of an element give the fields of its kind, bases included, in their order and with their names as written. The kind stands
/// folded. An attribute that names no field of the kind gives nothing, and neither does a text that the field's type doesn't read.
///
/// Source: SceneGraph XML Guide, "children".
pub fn attribute_values(
    alloc: Global,
    table: &FieldTable<'_>,
    kind: &str,
    attributes: &[AttributeText],
) -> Result<AttributeList, NoMemory>
    ensures values { IfOk result (λ values. map given_of values ≡ flat_map (given_by table.now kind.now) attributes.now) }
    ensures nodes { IfOk result NameNoNode }
{
    let mut values = AttributeList::new(alloc);
    for attribute in attributes {
        push_given(alloc, table, kind, &mut values, attribute)?;
    }
    Ok(values)
}
