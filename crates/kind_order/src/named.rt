//! Which components each component names.
ghost use Rattle.std.specs.Prelude.{◌≡◌, [], ◌∷◌, ◌++◌, map, IfOk, OnOk};
ghost use Rattle.std.specs.List.{filter_map};
ghost use Rattle.std.specs.Option.{option_to_list};
ghost use Rattle.chan_values.specs.Folded.{folded};
ghost use Rattle.folder_rules.specs.Children.{own_tag};
ghost use Rattle.folder_rules.specs.KindFaults.{named_kinds};
ghost use Rattle.folder_rules.specs.Kinds.{kind_names};
ghost use Rattle.folder_rules.specs.Names.{number_in, HasPlaces};
ghost use Rattle.kind_order.specs.Graph.{named_in, place_in, places_of_rows};
ghost use Rattle.kind_order.specs.Named.{behind_built_in, named_components};

use crate::lists::push;
use chan_values::{NoMemory, Text, fold_name};
use component_files::ChildElement;
use folder_rules::{NameTable, PathedComponent, push_children};
use std::alloc::Global;

/// How many kinds are built in.
const BUILT_IN: usize = 9;

/// The places of the components that a component names.
#[derive(Drop)]
pub(crate) struct NamedComponents {
    pub places: Vec<usize>,
}

/// The places of the components that the component at a place names, none past the end. Takes no memory.
pub(crate) fn named_at(rows: &[NamedComponents], place: usize) -> &[usize]
    ensures { result.now ≡ named_in rows.now place }
{
    match rows.get(place) {
        Some(row) => row.places.as_slice(),
        None => &[],
    }
}

/// The place behind the built-in kinds, where it is behind them.
fn behind_built_in(place: Option<usize>) -> Option<usize>
    ensures { result ≡ behind_built_in place }
{
    match place {
        Some(place) if place >= BUILT_IN => Some(place - BUILT_IN),
        _ => None,
    }
}

/// Adds the place of a kind, where it is a component.
fn push_kind(
    alloc: Global,
    names: &NameTable,
    kind: &Text,
    places: &mut Vec<usize>,
) -> Result<(), NoMemory>
    ensures { OnOk result (places.new.items ≡ places.old.items ++ option_to_list (place_in names.now (folded kind.now))) }
{
    let name = fold_name(alloc, kind.as_str().as_bytes())?;
    match behind_built_in(names.get(name.as_str())) {
        Some(place) => push(places, place),
        None => Ok(()),
    }
}

fn push_elements(
    alloc: Global,
    names: &NameTable,
    elements: &[&ChildElement],
    places: &mut Vec<usize>,
) -> Result<(), NoMemory>
    ensures { OnOk result (places.new.items ≡ places.old.items ++ filter_map (place_in names.now) (map (λ child. folded (own_tag child.now).kind) elements.now)) }
{
    for child in elements {
        push_kind(alloc, names, &child.kind, places)?;
    }
    Ok(())
}

/// The places of the components that a component names.
fn places_of(
    alloc: Global,
    names: &NameTable,
    component: &PathedComponent,
) -> Result<Vec<usize>, NoMemory>
    ensures { IfOk result (λ places. places.items ≡ filter_map (place_in names.now) (named_kinds component.now)) }
{
    let mut elements = Vec::new(alloc);
    push_children(component.file.children.as_slice(), &mut elements)?;
    let mut places = Vec::new(alloc);
    push_kind(alloc, names, &component.file.extends, &mut places)?;
    push_elements(alloc, names, elements.as_slice(), &mut places)?;
    Ok(places)
}

/// Adds the row of a component.
fn push_row(rows: &mut Vec<NamedComponents>, places: Vec<usize>) -> Result<(), NoMemory>
    ensures { OnOk result (places_of_rows rows.new.items ≡ places_of_rows rows.old.items ++ places.items ∷ []) }
{
    match rows.push(NamedComponents { places }) {
        Ok(()) => Ok(()),
        Err(_) => Err(NoMemory),
    }
}

/// For each component the places of the components that it names. `names` is the table that `kind_table` gives.
pub(crate) fn named_rows(
    alloc: Global,
    names: &NameTable,
    components: &[PathedComponent],
) -> Result<Vec<NamedComponents>, NoMemory>
    requires { HasPlaces names.now (kind_names components.now) }
    ensures { IfOk result (λ rows. places_of_rows rows.items ≡ map (named_components components.now) components.now) }
{
    let mut rows = Vec::new(alloc);
    for component in components {
        let places = places_of(alloc, names, component)?;
        push_row(&mut rows, places)?;
    }
    Ok(rows)
}
