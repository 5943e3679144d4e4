//! Words that are no type.
ghost use Rattle.std.specs.Prelude.{◌≡◌};
ghost use Rattle.std.specs.List.{flat_map};
ghost use Rattle.folder_rules.specs.Answers.{Finds};
ghost use Rattle.folder_rules.specs.Faults.{first};
ghost use Rattle.folder_rules.specs.FieldFaults.{bad_type, bad_types, bad_types_in};

use chan_values::{Text, fold_name};
use component_files::FieldElement;
use field_types::field_type;
use folder_rules::{PathedComponent, TablesAnswer, refusal};
use std::alloc::Global;

#[tactic(auto, unfolding(folder_rules::specs::FieldFaults::bad_type))]
fn check_type(alloc: Global, path: &Text, field: &FieldElement) -> Result<(), TablesAnswer>
    ensures { Finds (λ found. found ≡ first (bad_type path.now field.now)) result }
{
    if field_type(field.word.as_str().as_bytes()).is_none() {
        let id = fold_name(alloc, field.id.as_str().as_bytes())?;
        return Err(refusal(alloc, 15, path, field.line, id));
    }
    Ok(())
}

fn check_fields(alloc: Global, path: &Text, fields: &[FieldElement]) -> Result<(), TablesAnswer>
    ensures { Finds (λ found. found ≡ first (flat_map (bad_type path.now) fields.now)) result }
{
    for field in fields {
        check_type(alloc, path, field)?;
    }
    Ok(())
}

/// Refuses the first field, by path, line and column of its tag, whose type word is no type.
///
/// Source: SceneGraph XML Reference, "interface", its table of field types.
pub fn check_types(alloc: Global, components: &[PathedComponent]) -> Result<(), TablesAnswer>
    ensures { Finds (λ found. found ≡ first (bad_types components.now)) result }
{
    for component in components {
        check_fields(alloc, &component.path, component.file.fields.as_slice())?;
    }
    Ok(())
}
