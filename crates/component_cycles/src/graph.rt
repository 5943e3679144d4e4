//! Which kinds name which.
ghost use Rattle.std.specs.Prelude.{◌≡◌, ℕ, ◌+◌, ◌++◌, length, map, IfOk, OnOk};
ghost use Rattle.std.specs.List.{filter_map};
ghost use Rattle.std.specs.Option.{option_to_list};
ghost use Rattle.chan_values.specs.Folded.{folded};
ghost use Rattle.component_cycles.specs.Graph as spec;
ghost use Rattle.component_cycles.specs.Graph.{HasStepsOf};
ghost use Rattle.folder_rules.specs.Children.{own_tag};
ghost use Rattle.folder_rules.specs.KindFaults.{named_kinds};
ghost use Rattle.folder_rules.specs.Kinds.{kind_names};
ghost use Rattle.folder_rules.specs.Names.{number_in, HasPlaces};

use crate::lists::push;
use chan_values::{NoMemory, Text, fold_name};
use component_files::ChildElement;
use folder_rules::{NameTable, PathedComponent, push_children};
use std::alloc::Global;

/// How many kinds are built in.
const BUILT_IN: usize = 9;

/// The places of the kinds that the components of one name name.
#[derive(Drop)]
pub(crate) struct NamedKinds {
    pub places: Vec<usize>,
}

/// The places of the kinds that the kind at a place names, none past the end. Takes no memory.
pub(crate) fn named_at(graph: &[NamedKinds], place: usize) -> &[usize]
    ensures { result.now ≡ spec.named_at graph.now place }
{
    match graph.get(place) {
        Some(row) => row.places.as_slice(),
        None => &[],
    }
}

/// Adds the place of a kind, where it is one.
fn push_kind(
    alloc: Global,
    names: &NameTable,
    kind: &Text,
    places: &mut Vec<usize>,
) -> Result<(), NoMemory>
    ensures { OnOk result (places.new.items ≡ places.old.items ++ option_to_list (number_in names.now (folded kind.now))) }
{
    let name = fold_name(alloc, kind.as_str().as_bytes())?;
    match names.get(name.as_str()) {
        Some(place) => push(places, place),
        None => Ok(()),
    }
}

fn push_elements(
    alloc: Global,
    names: &NameTable,
    elements: &[&ChildElement],
    places: &mut Vec<usize>,
) -> Result<(), NoMemory>
    ensures { OnOk result (places.new.items ≡ places.old.items ++ filter_map (number_in names.now) (map (λ child. folded (own_tag child.now).kind) elements.now)) }
{
    for child in elements {
        push_kind(alloc, names, &child.kind, places)?;
    }
    Ok(())
}

/// The places of the kinds that a component names.
fn places_of(
    alloc: Global,
    names: &NameTable,
    component: &PathedComponent,
) -> Result<Vec<usize>, NoMemory>
    ensures { IfOk result (λ places. places.items ≡ filter_map (number_in names.now) (named_kinds component.now)) }
{
    let mut elements = Vec::new(alloc);
    push_children(component.file.children.as_slice(), &mut elements)?;
    let mut places = Vec::new(alloc);
    push_kind(alloc, names, &component.file.extends, &mut places)?;
    push_elements(alloc, names, elements.as_slice(), &mut places)?;
    Ok(places)
}

/// Adds places to those of a kind.
pub(crate) fn extend(graph: &mut [NamedKinds], place: usize, more: &[usize]) -> Result<(), NoMemory>
    ensures { OnOk result (spec.HasMoreAt place more.now graph.old graph.new) }
{
    if place >= graph.len() {
        return Ok(());
    }
    match graph[place].places.extend_from_slice(more) {
        Ok(()) => Ok(()),
        Err(_) => Err(NoMemory),
    }
}

fn add_component(
    alloc: Global,
    names: &NameTable,
    component: &PathedComponent,
    graph: &mut [NamedKinds],
) -> Result<(), NoMemory>
    ensures { OnOk result (spec.HasStepsMore names.now component.now graph.old graph.new) }
{
    let name = fold_name(alloc, component.file.name.as_str().as_bytes())?;
    match names.get(name.as_str()) {
        Some(place) => {
            let places = places_of(alloc, names, component)?;
            extend(graph, place, places.as_slice())
        }
        None => Ok(()),
    }
}

/// Adds a kind that names none.
pub(crate) fn push_empty(alloc: Global, graph: &mut Vec<NamedKinds>) -> Result<(), NoMemory>
    ensures { OnOk result ((kinds : ℕ) → spec.IsWithoutSteps kinds graph.old.items → spec.IsWithoutSteps (kinds + 1) graph.new.items) }
{
    match graph.push(NamedKinds {
        places: Vec::new(alloc),
    }) {
        Ok(()) => Ok(()),
        Err(_) => Err(NoMemory),
    }
}

/// Adds so many kinds that name none.
fn push_empties(alloc: Global, graph: &mut Vec<NamedKinds>, count: usize) -> Result<(), NoMemory>
    ensures { OnOk result ((kinds : ℕ) → spec.IsWithoutSteps kinds graph.old.items → spec.IsWithoutSteps (kinds + count) graph.new.items) }
{
    for _done in 0..count {
        push_empty(alloc, graph)?;
    }
    Ok(())
}

fn without_steps(alloc: Global, components: &[PathedComponent]) -> Result<Vec<NamedKinds>, NoMemory>
    ensures { IfOk result (λ graph. spec.IsWithoutSteps (9 + length components.now) graph.items) }
{
    let mut graph = Vec::new(alloc);
    push_empties(alloc, &mut graph, BUILT_IN)?;
    push_empties(alloc, &mut graph, components.len())?;
    Ok(graph)
}

/// For each kind, by its place, the places of the kinds that the components of its name name. `names` is the table that `kind_table` gives.
pub(crate) fn graph_of(
    alloc: Global,
    names: &NameTable,
    components: &[PathedComponent],
) -> Result<Vec<NamedKinds>, NoMemory>
    requires { HasPlaces names.now (kind_names components.now) }
    ensures { IfOk result (λ graph. HasStepsOf (kind_names components.now) components.now graph.items) }
{
    let mut graph = without_steps(alloc, components)?;
    for component in components {
        add_component(alloc, names, component, graph.as_mut_slice())?;
    }
    Ok(graph)
}
