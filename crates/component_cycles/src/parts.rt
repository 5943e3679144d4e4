//! The strongly connected parts of a graph, numbered so that each names parts of higher numbers alone.
//!
//! The numbers only spare searches: they are tested before they are used, so no promise rests on this file.
use crate::graph::{NamedKinds, extend, named_at, push_empty};
use crate::lists::{push, unmarked, zeros};
use chan_values::NoMemory;
use std::alloc::Global;

/// A kind that a walk visits, and how many of the kinds that it names are still to be looked at.
#[derive(Clone, Copy)]
struct Visit {
    place: usize,
    left: usize,
}

/// Begins the visit of a kind that is not seen yet.
fn begin_visit(
    graph: &[NamedKinds],
    place: usize,
    seen: &mut Vec<bool>,
    stack: &mut Vec<Visit>,
) -> Result<(), NoMemory> {
    if place >= seen.len() || seen[place] {
        return Ok(());
    }
    seen[place] = true;
    push_visit(
        stack,
        Visit {
            place,
            left: named_at(graph, place).len(),
        },
    )
}

fn push_visit(stack: &mut Vec<Visit>, visit: Visit) -> Result<(), NoMemory> {
    match stack.push(visit) {
        Ok(()) => Ok(()),
        Err(_) => Err(NoMemory),
    }
}

/// Looks at the next kind that a kind names, or ends its visit.
fn go_on(
    graph: &[NamedKinds],
    visit: Visit,
    seen: &mut Vec<bool>,
    stack: &mut Vec<Visit>,
    finished: &mut Vec<usize>,
) -> Result<(), NoMemory> {
    let Visit { place, left } = visit;
    if left == 0 {
        return push(finished, place);
    }
    let left = left - 1;
    push_visit(stack, Visit { place, left })?;
    match named_at(graph, place).get(left) {
        Some(other) => begin_visit(graph, *other, seen, stack),
        None => Ok(()),
    }
}

/// How many steps a walk over all kinds takes at most.
fn steps_of(graph: &[NamedKinds]) -> usize {
    let mut steps = graph.len();
    for row in graph {
        steps = steps.saturating_add(row.places.len());
    }
    steps
}

/// Walks depth-first from a kind over those that are not seen yet, and adds each where its visit ends. Takes at most `bound` steps.
fn walk(
    alloc: Global,
    graph: &[NamedKinds],
    bound: usize,
    start: usize,
    seen: &mut Vec<bool>,
    finished: &mut Vec<usize>,
) -> Result<(), NoMemory> {
    let mut stack = Vec::new(alloc);
    begin_visit(graph, start, seen, &mut stack)?;
    for _step in 0..bound {
        let Some(visit) = stack.pop() else {
            return Ok(());
        };
        go_on(graph, visit, seen, &mut stack, finished)?;
    }
    Ok(())
}

/// All kinds in the order in which their visits end.
fn order_of(alloc: Global, graph: &[NamedKinds], bound: usize) -> Result<Vec<usize>, NoMemory> {
    let mut seen = unmarked(alloc, graph.len())?;
    let mut finished = Vec::new(alloc);
    for place in 0..graph.len() {
        walk(alloc, graph, bound, place, &mut seen, &mut finished)?;
    }
    Ok(finished)
}

/// Adds the step from each of these kinds to another.
fn add_steps_back(
    reversed: &mut [NamedKinds],
    places: &[usize],
    other: usize,
) -> Result<(), NoMemory> {
    for place in places {
        extend(reversed, *place, &[other])?;
    }
    Ok(())
}

/// The graph with each step turned round.
fn reversed(alloc: Global, graph: &[NamedKinds]) -> Result<Vec<NamedKinds>, NoMemory> {
    let mut reversed = Vec::new(alloc);
    for _kind in graph {
        push_empty(alloc, &mut reversed)?;
    }
    for place in 0..graph.len() {
        add_steps_back(reversed.as_mut_slice(), named_at(graph, place), place)?;
    }
    Ok(reversed)
}

fn set_all(numbers: &mut [usize], places: &[usize], number: usize) {
    for place in places {
        if *place < numbers.len() {
            numbers[*place] = number;
        }
    }
}

/// The number of each kind's part. A part is found by a walk against the steps, from the kind whose visit ended last of
/// those that are in no part yet.
pub(crate) fn part_numbers(alloc: Global, graph: &[NamedKinds]) -> Result<Vec<usize>, NoMemory> {
    let bound = steps_of(graph);
    let mut order = order_of(alloc, graph, bound)?;
    let reversed = reversed(alloc, graph)?;
    let mut seen = unmarked(alloc, graph.len())?;
    let mut numbers = zeros(alloc, graph.len())?;
    for number in 0..order.len() {
        let Some(place) = order.pop() else {
            return Ok(numbers);
        };
        let mut part = Vec::new(alloc);
        walk(
            alloc,
            reversed.as_slice(),
            bound,
            place,
            &mut seen,
            &mut part,
        )?;
        set_all(numbers.as_mut_slice(), part.as_slice(), number);
    }
    Ok(numbers)
}
