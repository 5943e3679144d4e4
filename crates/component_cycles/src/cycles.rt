//! Components that are reached from themselves.
ghost use Rattle.std.specs.Prelude.{IfOk};
ghost use Rattle.std.specs.Bool.{MatchBool};
ghost use Rattle.component_cycles.specs.Graph.{Ascends, Leads, LeadsBack};
ghost use Rattle.component_cycles.specs.Judged.{Judged};
ghost use Rattle.folder_rules.specs.Answers.{Finds};
ghost use Rattle.folder_rules.specs.FirstFault.{IsFirstWrong};
ghost use Rattle.folder_rules.specs.KindFaults.{cycle_fault, IsInCycle};
ghost use Rattle.folder_rules.specs.Kinds.{kind_names};
ghost use Rattle.folder_rules.specs.Names.{HasPlaces};

use crate::graph::{NamedKinds, graph_of};
use crate::numbers::{ascending_numbers, stays};
use crate::reach::{is_marked, reached_from};
use chan_values::{NoMemory, fold_name};
use folder_rules::{NameTable, PathedComponent, TablesAnswer, refusal};
use std::alloc::Global;

/// Whether the kind at a place is reached from itself.
fn is_in_cycle(
    alloc: Global,
    graph: &[NamedKinds],
    numbers: &[usize],
    place: usize,
) -> Result<bool, NoMemory>
    requires { Ascends graph.now numbers.now }
    ensures { IfOk result (λ found. MatchBool found (Leads graph.now place place) (Leads graph.now place place → ⊥)) }
{
    if !stays(graph, numbers, place) {
        return Ok(false);
    }
    let marks = reached_from(alloc, graph, place)?;
    Ok(is_marked(marks.as_slice(), place))
}

fn check_component(
    alloc: Global,
    names: &NameTable,
    graph: &[NamedKinds],
    numbers: &[usize],
    component: &PathedComponent,
) -> Result<(), TablesAnswer>
    requires { Ascends graph.now numbers.now }
    ensures { Finds (Judged (LeadsBack names.now graph.now component.now) (cycle_fault component.now)) result }
{
    let name = fold_name(alloc, component.file.name.as_str().as_bytes())?;
    let Some(place) = names.get(name.as_str()) else {
        return Ok(());
    };
    if is_in_cycle(alloc, graph, numbers, place)? {
        return Err(refusal(alloc, 11, &component.path, component.file.line, name));
    }
    Ok(())
}

fn check_each(
    alloc: Global,
    names: &NameTable,
    graph: &[NamedKinds],
    numbers: &[usize],
    components: &[PathedComponent],
) -> Result<(), TablesAnswer>
    requires { Ascends graph.now numbers.now }
    ensures { Finds (IsFirstWrong (LeadsBack names.now graph.now) cycle_fault components.now) result }
{
    for component in components {
        check_component(alloc, names, graph, numbers, component)?;
    }
    Ok(())
}

fn check_graph(
    alloc: Global,
    names: &NameTable,
    graph: &[NamedKinds],
    components: &[PathedComponent],
) -> Result<(), TablesAnswer>
    ensures { Finds (IsFirstWrong (LeadsBack names.now graph.now) cycle_fault components.now) result }
{
    let numbers = ascending_numbers(alloc, graph)?;
    check_each(alloc, names, graph, numbers.as_slice(), components)
}

/// Refuses the first component, by path, that is reached from itself by bases and child kinds. `names` is the table that `kind_table` gives.
/// A component that only leads to such a one is not refused. Where no component is reached from itself, the time grows with the number of kinds that
/// are named.
///
/// Source: SceneGraph XML Guide, "component", its attribute extends, and "children".
pub fn check_cycles(
    alloc: Global,
    names: &NameTable,
    components: &[PathedComponent],
) -> Result<(), TablesAnswer>
    requires { HasPlaces names.now (kind_names components.now) }
    ensures { Finds (IsFirstWrong (IsInCycle components.now) cycle_fault components.now) result }
{
    let graph = graph_of(alloc, names, components)?;
    check_graph(alloc, names, graph.as_slice(), components)
}
