//! Texts that their field's type doesn't read.
ghost use Rattle.std.specs.Prelude.{◌≡◌, ℕ, List, Option, None, Some, IfOk};
ghost use Rattle.std.specs.List.{flat_map};
ghost use Rattle.std.specs.Option.{option_map};
ghost use Rattle.chan_values.specs.Folded.{folded};
ghost use Rattle.field_faults.specs.Values as spec;
ghost use Rattle.field_faults.specs.Values.{LooksAt};
ghost use Rattle.folder_rules.specs.Answers.{Finds};
ghost use Rattle.folder_rules.specs.Children.{own_tag};
ghost use Rattle.folder_rules.specs.Faults.{is_before};
ghost use Rattle.folder_rules.specs.FieldFaults.{all_texts, field_text, text_for, unread_fault, IsUnread};
ghost use Rattle.folder_rules.specs.FirstFault.{IsFirstWrong};
ghost use Rattle.folder_rules.specs.Kinds.{kind_names};
ghost use Rattle.folder_rules.specs.Names.{HasPlaces};

use crate::rows::{KindFields, field_at, kind_rows};
use chan_values::{NoMemory, Text, fold_name};
use component_files::{ChildElement, FieldElement};
use field_types::{AttributeAnswer, FieldType, field_type, read_attribute};
use folder_rules::{NameTable, PathedComponent, TablesAnswer, push_children, refusal};
use std::alloc::Global;
use xml_pieces::AttributeText;

/// A text that its field's type doesn't read: the line and the column of the tag, and the field's id, folded.
#[derive(Drop)]
pub(crate) struct Unread {
    line: u32,
    column: u32,
    id: Text,
}

/// The earlier of two by the place of the tag; of two in one tag the first.
fn earlier_of(first: Option<Unread>, next: Unread) -> Option<Unread>
    ensures { result ≡ spec.earlier_of first next }
{
    match first {
        Some(first) => {
            if is_before(&next, &first) {
                Some(next)
            } else {
                Some(first)
            }
        }
        None => Some(next),
    }
}

fn is_before(a: &Unread, b: &Unread) -> bool
    ensures { result ≡ is_before (a.now.line, a.now.column) (b.now.line, b.now.column) }
{
    if a.line == b.line {
        a.column < b.column
    } else {
        a.line < b.line
    }
}

/// Whether a type reads a text.
fn is_read(alloc: Global, holds: FieldType, text: &Text) -> Result<bool, NoMemory>
    ensures { IfOk result (spec.Says holds text.now) }
{
    match read_attribute(alloc, holds, text.as_str().as_bytes()) {
        Ok(_) => Ok(true),
        Err(AttributeAnswer::BadText) => Ok(false),
        Err(AttributeAnswer::NoMemory) => Err(NoMemory),
    }
}

/// Looks at a text for a field, where its type is known: the first text that is not read, of this one and those before.
fn look_at(
    alloc: Global,
    first: Option<Unread>,
    holds: Option<FieldType>,
    line: u32,
    column: u32,
    id: &Text,
    text: &Text,
) -> Result<Option<Unread>, NoMemory>
    ensures { IfOk result (λ found. (path : List ℕ) → LooksAt path (text_for path line column (folded id.now) holds (Some text.now)) first found) }
{
    let Some(holds) = holds else {
        return Ok(first);
    };
    if is_read(alloc, holds, text)? {
        return Ok(first);
    }
    let id = fold_name(alloc, id.as_str().as_bytes())?;
    Ok(earlier_of(first, Unread { line, column, id }))
}

fn look_at_field(
    alloc: Global,
    first: Option<Unread>,
    field: &FieldElement,
) -> Result<Option<Unread>, NoMemory>
    ensures { IfOk result (λ found. (path : List ℕ) → LooksAt path (field_text path field.now) first found) }
{
    match &field.value {
        Some(text) => look_at(
            alloc,
            first,
            field_type(field.word.as_str().as_bytes()),
            field.line,
            field.column,
            &field.id,
            text,
        ),
        None => Ok(first),
    }
}

fn look_at_fields(
    alloc: Global,
    first: Option<Unread>,
    fields: &[FieldElement],
) -> Result<Option<Unread>, NoMemory>
    ensures { IfOk result (λ found. (path : List ℕ) → LooksAt path (flat_map (field_text path) fields.now) first found) }
{
    let mut first = first;
    for field in fields {
        first = look_at_field(alloc, first, field)?;
    }
    Ok(first)
}

/// Looks at an attribute of a child element whose kind stands at a place.
fn look_at_attribute(
    alloc: Global,
    rows: &[KindFields],
    kind: Option<usize>,
    first: Option<Unread>,
    child: &ChildElement,
    attribute: &AttributeText,
) -> Result<Option<Unread>, NoMemory>
    ensures { IfOk result (λ found. (path : List ℕ) → LooksAt path (spec.attribute_text rows.now kind path (own_tag child.now) attribute.now) first found) }
{
    let name = fold_name(alloc, attribute.name.as_str().as_bytes())?;
    let holds = type_there(field_at(rows, kind, name.as_str()));
    look_at(
        alloc,
        first,
        holds,
        child.line,
        child.column,
        &attribute.name,
        &attribute.value,
    )
}

/// What a field holds, where there is a field and its word is a type.
pub(crate) fn type_there(field: Option<Option<FieldType>>) -> Option<FieldType>
    ensures { result ≡ spec.type_there field }
{
    match field {
        Some(holds) => holds,
        None => None,
    }
}

fn look_at_attributes(
    alloc: Global,
    rows: &[KindFields],
    kind: Option<usize>,
    first: Option<Unread>,
    child: &ChildElement,
    attributes: &[AttributeText],
) -> Result<Option<Unread>, NoMemory>
    ensures { IfOk result (λ found. (path : List ℕ) → LooksAt path (flat_map (spec.attribute_text rows.now kind path (own_tag child.now)) attributes.now) first found) }
{
    let mut first = first;
    for attribute in attributes {
        first = look_at_attribute(alloc, rows, kind, first, child, attribute)?;
    }
    Ok(first)
}

fn look_at_child(
    alloc: Global,
    names: &NameTable,
    rows: &[KindFields],
    first: Option<Unread>,
    child: &ChildElement,
) -> Result<Option<Unread>, NoMemory>
    ensures { IfOk result (λ found. (path : List ℕ) → LooksAt path (spec.tag_texts names.now rows.now path (own_tag child.now)) first found) }
{
    let name = fold_name(alloc, child.kind.as_str().as_bytes())?;
    let kind = names.get(name.as_str());
    look_at_attributes(alloc, rows, kind, first, child, child.attributes.as_slice())
}

fn look_at_children(
    alloc: Global,
    names: &NameTable,
    rows: &[KindFields],
    first: Option<Unread>,
    elements: &[&ChildElement],
) -> Result<Option<Unread>, NoMemory>
    ensures { IfOk result (λ found. (path : List ℕ) → LooksAt path (flat_map (λ child. spec.tag_texts names.now rows.now path (own_tag child.now)) elements.now) first found) }
{
    let mut first = first;
    for child in elements {
        first = look_at_child(alloc, names, rows, first, *child)?;
    }
    Ok(first)
}

fn first_unread(
    alloc: Global,
    names: &NameTable,
    rows: &[KindFields],
    component: &PathedComponent,
) -> Result<Option<Unread>, NoMemory>
    ensures { IfOk result (λ found. (path : List ℕ) → LooksAt path (spec.texts_of names.now rows.now path component.now) None found) }
{
    let mut elements = Vec::new(alloc);
    push_children(component.file.children.as_slice(), &mut elements)?;
    let first = look_at_fields(alloc, None, component.file.fields.as_slice())?;
    look_at_children(alloc, names, rows, first, elements.as_slice())
}

/// The refusal of a text, where there is one.
fn refuse(alloc: Global, path: &Text, unread: Option<Unread>) -> Result<(), TablesAnswer>
    ensures { Finds (λ found. found ≡ option_map (spec.fault_at path.now) unread) result }
{
    match unread {
        Some(unread) => {
            let Unread {
                line,
                column: _column,
                id,
            } = unread;
            Err(refusal(alloc, 16, path, line, id))
        }
        None => Ok(()),
    }
}

fn check_component(
    alloc: Global,
    names: &NameTable,
    rows: &[KindFields],
    component: &PathedComponent,
) -> Result<(), TablesAnswer>
    ensures { Finds (IsFirstWrong IsUnread unread_fault (spec.row_texts names.now rows.now component.now)) result }
{
    let unread = first_unread(alloc, names, rows, component)?;
    refuse(alloc, &component.path, unread)
}

fn check_each(
    alloc: Global,
    names: &NameTable,
    rows: &[KindFields],
    components: &[PathedComponent],
) -> Result<(), TablesAnswer>
    ensures { Finds (IsFirstWrong IsUnread unread_fault (flat_map (spec.row_texts names.now rows.now) components.now)) result }
{
    for component in components {
        check_component(alloc, names, rows, component)?;
    }
    Ok(())
}

/// Refuses the first text, by path, line and column of the tag and then by the place of the attribute, that its field's type doesn't read: the value
/// of a field, or an attribute of a child element that is a field of the element's kind, bases included. A field without a type and an attribute that
/// is no field read every text. `names` is the table that `kind_table` gives. Looks for each attribute at each base once.
///
/// Source: SceneGraph XML Guide, "interface" and "children".
pub fn check_values(
    alloc: Global,
    names: &NameTable,
    components: &[PathedComponent],
) -> Result<(), TablesAnswer>
    requires { HasPlaces names.now (kind_names components.now) }
    ensures { Finds (IsFirstWrong IsUnread unread_fault (all_texts components.now)) result }
{
    let rows = kind_rows(alloc, names, components)?;
    check_each(alloc, names, rows.as_slice(), components)
}
