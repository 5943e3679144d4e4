//! Bases that are no kinds.
ghost use Rattle.std.specs.Prelude.{◌≡◌};
ghost use Rattle.std.specs.List.{flat_map};
ghost use Rattle.folder_rules.specs.Answers.{Finds};
ghost use Rattle.folder_rules.specs.Faults.{first};
ghost use Rattle.folder_rules.specs.KindFaults.{unknown_base, unknown_bases};
ghost use Rattle.folder_rules.specs.Kinds.{kind_names};
ghost use Rattle.folder_rules.specs.Names.{is_known, HasPlaces};

use chan_values::fold_name;
use folder_rules::{NameTable, PathedComponent, TablesAnswer, refusal};
use std::alloc::Global;

fn check_base(
    alloc: Global,
    names: &NameTable,
    component: &PathedComponent,
) -> Result<(), TablesAnswer>
    ensures { Finds (λ found. found ≡ first (unknown_base (is_known names.now) component.now)) result }
{
    let base = fold_name(alloc, component.file.extends.as_str().as_bytes())?;
    if names.get(base.as_str()).is_none() {
        return Err(refusal(alloc, 10, &component.path, component.file.line, base));
    }
    Ok(())
}

fn check_each(
    alloc: Global,
    names: &NameTable,
    components: &[PathedComponent],
) -> Result<(), TablesAnswer>
    ensures { Finds (λ found. found ≡ first (flat_map (unknown_base (is_known names.now)) components.now)) result }
{
    for component in components {
        check_base(alloc, names, component)?;
    }
    Ok(())
}

/// Refuses the first component, by path, whose base is neither a built-in kind nor a component. `names` is the table that `kind_table` gives.
///
/// Source: SceneGraph XML Guide, "component", its attribute extends.
pub fn check_bases(
    alloc: Global,
    names: &NameTable,
    components: &[PathedComponent],
) -> Result<(), TablesAnswer>
    requires { HasPlaces names.now (kind_names components.now) }
    ensures { Finds (λ found. found ≡ first (unknown_bases components.now)) result }
{
    check_each(alloc, names, components)
}
