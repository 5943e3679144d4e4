//! A walk over a component and all that it names, one after another.
ghost use Rattle.std.specs.Prelude.{◌≡◌, ◌<◌, ◌++◌, ◌∷◌, [], length, map, true, slice_set, OnOk};
ghost use Rattle.std.specs.Option.{option_map};
ghost use Rattle.kind_order.specs.Graph.{named_in, IsWithoutCycle};
ghost use Rattle.kind_order.specs.Order.{put};
ghost use Rattle.kind_order.specs.Walk as spec;
ghost use Rattle.kind_order.specs.Walk.{begun, walk_of, AreMarked};

use crate::lists::push;
use crate::named::{NamedComponents, named_at};
use chan_values::NoMemory;
use std::alloc::Global;

/// A component that is begun, and those of the components that it names that are not looked at yet.
#[derive(Clone, Copy)]
pub(crate) struct Visit<'a> {
    place: usize,
    left: &'a [usize],
}

/// Whether a component is marked, true past the end.
fn is_marked(marks: &[bool], place: usize) -> bool
    ensures { result ≡ spec.is_marked marks.now place }
{
    marks.get(place).copied().unwrap_or(true)
}

/// The first that isn't marked, with those behind it.
fn next_unmarked<'a>(places: &'a [usize], marks: &[bool]) -> Option<(usize, &'a [usize])>
    ensures { option_map (λ next. (next.0, next.1.now)) result ≡ spec.next_unmarked marks.now places.now }
{
    let mut left = places;
    while let [place, rest @ ..] = left {
        if !is_marked(marks, *place) {
            return Some((*place, rest));
        }
        left = rest;
    }
    None
}

fn push_visit<'a>(stack: &mut Vec<Visit<'a>>, visit: Visit<'a>) -> Result<(), NoMemory>
    ensures { OnOk result (map begun stack.new.items ≡ map begun stack.old.items ++ begun visit.entry ∷ []) }
{
    match stack.push(visit) {
        Ok(()) => Ok(()),
        Err(_) => Err(NoMemory),
    }
}

/// Marks a component and begins it.
fn begin<'a>(
    rows: &'a [NamedComponents],
    place: usize,
    marks: &mut Vec<bool>,
    stack: &mut Vec<Visit<'a>>,
) -> Result<(), NoMemory>
    requires { place < length marks.old.items }
    ensures marks { OnOk result (marks.new.items ≡ slice_set marks.old.items place true) }
    ensures stack { OnOk result (map begun stack.new.items ≡ map begun stack.old.items ++ spec.first_of (named_in rows.now) place ∷ []) }
{
    marks[place] = true;
    push_visit(
        stack,
        Visit {
            place,
            left: named_at(rows, place),
        },
    )
}

/// Begins the next component that a component names, or puts the component behind the order.
fn go_on<'a>(
    rows: &'a [NamedComponents],
    visit: Visit<'a>,
    marks: &mut Vec<bool>,
    stack: &mut Vec<Visit<'a>>,
    order: &mut Vec<usize>,
) -> Result<(), NoMemory>
    ensures { OnOk result (walk_of marks.new.items stack.new.items order.new.items ≡ spec.go_on (named_in rows.now) visit.entry.place (spec.next_unmarked marks.old.items (begun visit.entry).left) (walk_of marks.old.items stack.old.items order.old.items)) }
{
    match next_unmarked(visit.left, marks.as_slice()) {
        Some((place, left)) => {
            push_visit(
                stack,
                Visit {
                    place: visit.place,
                    left,
                },
            )?;
            begin(rows, place, marks, stack)
        }
        None => push(order, visit.place),
    }
}

/// Puts a component behind the order, behind all that it names. Takes time in the number of components that it leads to, and of those that they name.
pub(crate) fn walk(
    alloc: Global,
    rows: &[NamedComponents],
    start: usize,
    marks: &mut Vec<bool>,
    order: &mut Vec<usize>,
) -> Result<(), NoMemory>
    requires start { start < length rows.now }
    requires graph { IsWithoutCycle (length rows.now) (named_in rows.now) }
    requires marked { AreMarked (length rows.now) marks.old.items order.old.items }
    ensures order { OnOk result (order.new.items ≡ put (length rows.now) (named_in rows.now) order.old.items start) }
    ensures marked { OnOk result (AreMarked (length rows.now) marks.new.items order.new.items) }
{
    if is_marked(marks.as_slice(), start) {
        return Ok(());
    }
    let mut stack = Vec::new(alloc);
    begin(rows, start, marks, &mut stack)?;
    while let Some(visit) = stack.pop() {
        go_on(rows, visit, marks, &mut stack, order)?;
    }
    Ok(())
}
