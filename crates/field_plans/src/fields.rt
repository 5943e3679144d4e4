//! The fields of a kind's own.
ghost use Rattle.std.specs.Prelude.{◌≡◌, [], ◌∷◌, ◌++◌, map, IfOk, OnOk};
ghost use Rattle.std.specs.List.{flat_map};
ghost use Rattle.field_plans.specs.Fields as spec;
ghost use Rattle.field_plans.specs.Fields.{NameNoNodes};

use crate::values::{field_opening, opening_by};
use chan_values::{NoMemory, Text, copy_text};
use component_files::FieldElement;
use field_types::{FieldPlan, FieldPlanList, FieldType, field_type};
use std::alloc::Global;

/// Adds a field at the end.
fn push_field(fields: &mut FieldPlanList, field: FieldPlan) -> Result<(), NoMemory>
    ensures { OnOk result (fields.new ≡ fields.old ++ field ∷ []) }
{
    match fields.push(field) {
        Ok(()) => Ok(()),
        Err(_) => Err(NoMemory),
    }
}

/// Adds a field of an interface at the end, where its word is a type.
fn push_declared(
    alloc: Global,
    fields: &mut FieldPlanList,
    element: &FieldElement,
) -> Result<(), NoMemory>
    ensures { OnOk result (map spec.field_of fields.new ≡ map spec.field_of fields.old ++ spec.own_field element.now) }
{
    let Some(kind) = field_type(element.word.as_str().as_bytes()) else {
        return Ok(());
    };
    let opening = field_opening(alloc, kind, &element.value)?;
    let id = copy_text(alloc, &element.id)?;
    push_field(
        fields,
        FieldPlan {
            id,
            kind,
            always: element.always,
            opening,
        },
    )
}

/// The fields of an interface in their order, with their ids as declared. A field whose word is no type is left out, and a text that the type
/// doesn't read gives the usual opening value.
///
/// Source: SceneGraph XML Guide, "interface".
pub fn own_fields(alloc: Global, elements: &[FieldElement]) -> Result<FieldPlanList, NoMemory>
    ensures fields { IfOk result (λ fields. map spec.field_of fields ≡ spec.own_fields elements.now) }
    ensures openings { IfOk result NameNoNodes }
{
    let mut fields = FieldPlanList::new(alloc);
    for element in elements {
        push_declared(alloc, &mut fields, element)?;
    }
    Ok(fields)
}

/// Adds a field at the end, told by its id, its type and the text of its opening value.
fn push_told(
    alloc: Global,
    fields: &mut FieldPlanList,
    id: &str,
    kind: FieldType,
    text: &str,
) -> Result<(), NoMemory>
    ensures { OnOk result (map spec.field_of fields.new ≡ map spec.field_of fields.old ++ spec.told_field id.now kind text.now ∷ []) }
{
    let opening = opening_by(alloc, kind, text)?;
    let mut name = Text::new(alloc);
    name.push_str(id)?;
    push_field(
        fields,
        FieldPlan {
            id: name,
            kind,
            always: false,
            opening,
        },
    )
}

/// Fields that are told by their ids, their types and the texts of their opening values. A set of an equal value doesn't count as a change of any.
pub fn told_fields(
    alloc: Global,
    words: &[(&str, FieldType, &str)],
) -> Result<FieldPlanList, NoMemory>
    ensures fields { IfOk result (λ fields. map spec.field_of fields ≡ map spec.told_by words.now) }
    ensures openings { IfOk result NameNoNodes }
{
    let mut fields = FieldPlanList::new(alloc);
    for word in words {
        push_told(alloc, &mut fields, word.0, word.1, word.2)?;
    }
    Ok(fields)
}
