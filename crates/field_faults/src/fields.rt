//! Fields whose id stands twice.
ghost use Rattle.std.specs.Prelude.{◌≡◌, ℕ, ◌||◌, List, [], OnOk};
ghost use Rattle.std.specs.List.{flat_map};
ghost use Rattle.std.specs.Str.{bytes_eq};
ghost use Rattle.chan_values.specs.Folded.{folded};
ghost use Rattle.field_faults.specs.Rows.{has_field, row_faults};
ghost use Rattle.folder_rules.specs.Answers.{Finds};
ghost use Rattle.folder_rules.specs.Faults.{fault_on, fault_where, first};
ghost use Rattle.folder_rules.specs.FieldFaults.{duplicate_fields, repeated_ids};
ghost use Rattle.folder_rules.specs.Kinds.{kind_names};
ghost use Rattle.folder_rules.specs.Names.{is_known, HasPlaces};

use crate::rows::{KindFields, field_at, kind_rows};
use chan_values::{Text, fold_name};
use component_files::FieldElement;
use folder_rules::{NameTable, PathedComponent, TablesAnswer, refusal};
use std::alloc::Global;

/// Adds the id of a field, which is refused where the kind at the place of the base has it or where it is there.
fn add_field(
    alloc: Global,
    rows: &[KindFields],
    base: Option<usize>,
    ids: &mut NameTable,
    path: &Text,
    field: &FieldElement,
) -> Result<(), TablesAnswer>
    ensures first { Finds (λ found. found ≡ first (fault_where (has_field rows.now base (folded field.now.id) || is_known ids.old (folded field.now.id)) (fault_on 14 path.now field.now.line (folded field.now.id)))) result }
    ensures added { OnOk result ((id : List ℕ) → is_known ids.new id ≡ (is_known ids.old id || bytes_eq (folded field.now.id) id)) }
{
    let id = fold_name(alloc, field.id.as_str().as_bytes())?;
    if field_at(rows, base, id.as_str()).is_some() || ids.get(id.as_str()).is_some() {
        return Err(refusal(alloc, 14, path, field.line, id));
    }
    ids.add(id, 0)?;
    Ok(())
}

fn check_fields(
    alloc: Global,
    rows: &[KindFields],
    base: Option<usize>,
    path: &Text,
    fields: &[FieldElement],
) -> Result<(), TablesAnswer>
    ensures { Finds (λ found. found ≡ first (repeated_ids (has_field rows.now base) path.now [] fields.now)) result }
{
    let mut ids = NameTable::new(alloc);
    for field in fields {
        add_field(alloc, rows, base, &mut ids, path, field)?;
    }
    Ok(())
}

fn check_component(
    alloc: Global,
    names: &NameTable,
    rows: &[KindFields],
    component: &PathedComponent,
) -> Result<(), TablesAnswer>
    ensures { Finds (λ found. found ≡ first (row_faults names.now rows.now component.now)) result }
{
    let base = fold_name(alloc, component.file.extends.as_str().as_bytes())?;
    check_fields(
        alloc,
        rows,
        names.get(base.as_str()),
        &component.path,
        component.file.fields.as_slice(),
    )
}

fn check_each(
    alloc: Global,
    names: &NameTable,
    rows: &[KindFields],
    components: &[PathedComponent],
) -> Result<(), TablesAnswer>
    ensures { Finds (λ found. found ≡ first (flat_map (row_faults names.now rows.now) components.now)) result }
{
    for component in components {
        check_component(alloc, names, rows, component)?;
    }
    Ok(())
}

/// Refuses the first field, by path, line and column of its tag, whose id is among the fields of the component's base or among those before it.
/// `names` is the table that `kind_table` gives. Looks for each id at each base once.
///
/// Source: SceneGraph XML Guide, "interface".
pub fn check_duplicate_fields(
    alloc: Global,
    names: &NameTable,
    components: &[PathedComponent],
) -> Result<(), TablesAnswer>
    requires { HasPlaces names.now (kind_names components.now) }
    ensures { Finds (λ found. found ≡ first (duplicate_fields components.now)) result }
{
    let rows = kind_rows(alloc, names, components)?;
    check_each(alloc, names, rows.as_slice(), components)
}
