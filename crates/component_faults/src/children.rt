//! Child elements whose kind is unknown.
ghost use Rattle.std.specs.Prelude.{◌≡◌};
ghost use Rattle.std.specs.List.{flat_map};
ghost use Rattle.folder_rules.specs.Answers.{Finds};
ghost use Rattle.folder_rules.specs.Children.{own_tag, own_tags};
ghost use Rattle.folder_rules.specs.Faults.{first};
ghost use Rattle.folder_rules.specs.KindFaults.{unknown_child, unknown_children, unknown_children_in};
ghost use Rattle.folder_rules.specs.Kinds.{kind_names};
ghost use Rattle.folder_rules.specs.Names.{is_known, HasPlaces};

use chan_values::{Text, fold_name};
use component_files::ChildElement;
use folder_rules::{NameTable, PathedComponent, TablesAnswer, push_children, refusal};
use std::alloc::Global;

fn check_child(
    alloc: Global,
    names: &NameTable,
    path: &Text,
    child: &ChildElement,
) -> Result<(), TablesAnswer>
    ensures { Finds (λ found. found ≡ first (unknown_child (is_known names.now) path.now (own_tag child.now))) result }
{
    let kind = fold_name(alloc, child.kind.as_str().as_bytes())?;
    if names.get(kind.as_str()).is_none() {
        return Err(refusal(alloc, 18, path, child.line, kind));
    }
    Ok(())
}

fn check_elements(
    alloc: Global,
    names: &NameTable,
    path: &Text,
    elements: &[&ChildElement],
) -> Result<(), TablesAnswer>
    ensures { Finds (λ found. found ≡ first (flat_map (λ child. unknown_child (is_known names.now) path.now (own_tag child.now)) elements.now)) result }
{
    for child in elements {
        check_child(alloc, names, path, *child)?;
    }
    Ok(())
}

fn check_component(
    alloc: Global,
    names: &NameTable,
    component: &PathedComponent,
) -> Result<(), TablesAnswer>
    ensures { Finds (λ found. found ≡ first (unknown_children_in (is_known names.now) component.now)) result }
{
    let mut elements = Vec::new(alloc);
    push_children(component.file.children.as_slice(), &mut elements)?;
    check_elements(alloc, names, &component.path, elements.as_slice())
}

fn check_each(
    alloc: Global,
    names: &NameTable,
    components: &[PathedComponent],
) -> Result<(), TablesAnswer>
    ensures { Finds (λ found. found ≡ first (flat_map (unknown_children_in (is_known names.now)) components.now)) result }
{
    for component in components {
        check_component(alloc, names, component)?;
    }
    Ok(())
}

/// Refuses the first child element, by path and then in the order in which they begin, whose kind is neither built in nor a component. `names` is
/// the table that `kind_table` gives.
///
/// Source: SceneGraph XML Guide, "children".
pub fn check_children(
    alloc: Global,
    names: &NameTable,
    components: &[PathedComponent],
) -> Result<(), TablesAnswer>
    requires { HasPlaces names.now (kind_names components.now) }
    ensures { Finds (λ found. found ≡ first (unknown_children components.now)) result }
{
    check_each(alloc, names, components)
}
