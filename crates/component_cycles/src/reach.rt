//! The kinds that are reached from one.
ghost use Rattle.std.specs.Prelude.{◌≡◌, ◌∷◌, [], false, IfOk, OnOk};
ghost use Rattle.std.specs.List.{slice_index_or};
ghost use Rattle.component_cycles.specs.Search.{IsReached, Marks};

use crate::graph::{NamedKinds, named_at};
use crate::lists::{push, unmarked};
use chan_values::NoMemory;
use std::alloc::Global;

/// Marks a kind. One that was not marked waits to be looked at.
fn mark(place: usize, marks: &mut Vec<bool>, waiting: &mut Vec<usize>) -> Result<(), NoMemory>
    ensures { OnOk result (Marks (place ∷ []) marks.old.items waiting.old.items marks.new.items waiting.new.items) }
{
    if place >= marks.len() {
        return Ok(());
    }
    if marks[place] {
        return Ok(());
    }
    marks[place] = true;
    push(waiting, place)
}

fn mark_all(
    places: &[usize],
    marks: &mut Vec<bool>,
    waiting: &mut Vec<usize>,
) -> Result<(), NoMemory>
    ensures { OnOk result (Marks places.now marks.old.items waiting.old.items marks.new.items waiting.new.items) }
{
    for place in places {
        mark(*place, marks, waiting)?;
    }
    Ok(())
}

/// Which kinds are reached from the kind at a place, by one step or more. Looks at each kind once.
pub(crate) fn reached_from(
    alloc: Global,
    graph: &[NamedKinds],
    start: usize,
) -> Result<Vec<bool>, NoMemory>
    ensures { IfOk result (λ marks. IsReached graph.now start marks.items) }
{
    let mut marks = unmarked(alloc, graph.len())?;
    let mut waiting = Vec::new(alloc);
    push(&mut waiting, start)?;
    while let Some(place) = waiting.pop() {
        mark_all(named_at(graph, place), &mut marks, &mut waiting)?;
    }
    Ok(marks)
}

/// Whether a kind is marked. Takes no memory.
pub(crate) fn is_marked(marks: &[bool], place: usize) -> bool
    ensures { result ≡ slice_index_or marks.now place false }
{
    marks.get(place).copied().unwrap_or(false)
}
