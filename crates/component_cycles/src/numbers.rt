//! Numbers of kinds, such that none names a kind of a lower number.
ghost use Rattle.std.specs.Prelude.{◌≡◌, ◌≢◌, ◌≤◌, true, false, slice_index, All, IfOk};
ghost use Rattle.component_cycles.specs.Graph.{named_at, Ascends};

use crate::graph::{NamedKinds, named_at};
use crate::parts::part_numbers;
use chan_values::NoMemory;
use std::alloc::Global;

/// The number of a kind, 0 past the end.
fn number_at(numbers: &[usize], place: usize) -> usize
    ensures { result ≡ slice_index numbers.now place }
{
    numbers.get(place).copied().unwrap_or(0)
}

/// Whether each of these kinds has at least a number.
fn are_at_least(places: &[usize], numbers: &[usize], least: usize) -> bool
    ensures { result ≡ true → All (λ place. least ≤ slice_index numbers.now place) places.now }
{
    for place in places {
        if number_at(numbers, *place) < least {
            return false;
        }
    }
    true
}

fn ascends(graph: &[NamedKinds], numbers: &[usize]) -> bool
    ensures { result ≡ true → Ascends graph.now numbers.now }
{
    for place in 0..graph.len() {
        if !are_at_least(named_at(graph, place), numbers, number_at(numbers, place)) {
            return false;
        }
    }
    true
}

/// Whether one of these kinds has a number.
fn any_has(places: &[usize], numbers: &[usize], number: usize) -> bool
    ensures { result ≡ false → All (λ place. slice_index numbers.now place ≢ number) places.now }
{
    for place in places {
        if number_at(numbers, *place) == number {
            return true;
        }
    }
    false
}

/// Whether the kind at a place names one of its own number. Only such a kind can be reached from itself.
pub(crate) fn stays(graph: &[NamedKinds], numbers: &[usize], place: usize) -> bool
    ensures { result ≡ false → All (λ other. slice_index numbers.now other ≢ slice_index numbers.now place) (named_at graph.now place) }
{
    any_has(named_at(graph, place), numbers, number_at(numbers, place))
}

/// A number for each kind, such that no kind names one of a lower number; kinds that are reached from one another have one number. All have the
/// number 0 where the list is empty.
pub(crate) fn ascending_numbers(alloc: Global, graph: &[NamedKinds]) -> Result<Vec<usize>, NoMemory>
    ensures { IfOk result (λ numbers. Ascends graph.now numbers.items) }
{
    let numbers = part_numbers(alloc, graph)?;
    if ascends(graph, numbers.as_slice()) {
        return Ok(numbers);
    }
    Ok(Vec::new(alloc))
}
