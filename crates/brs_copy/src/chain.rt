//! Whether a chain of so many arrays or associative arrays begins at a value, decided without
//! unfolding it.
ghost use Rattle.std.specs.Prelude.{◌≡◌, ℕ, ◌+◌, ◌<◌, [], ◌∷◌, ◌++◌, IsTrue, ◌↔◌, IfOk, OnOk};
ghost use Rattle.copy_meaning.specs.Unfolding.{Chain};
ghost use Rattle.copy_meaning.specs.Forms.{form_at};
ghost use Rattle.brs_copy.specs.Marks.{is_marked_in, HoldsMarked, Marks};

use brs_heap::{Heap, Value};
use chan_values::NoMemory;
use std::alloc::Global;

/// Whether the value's cell is marked.
fn is_marked(heap: &Heap, v: &Value, marks: &[bool]) -> bool
    ensures { result ≡ is_marked_in marks.now v.now }
{
    match heap.place(v) {
        Some(place) => place < marks.len() && marks[place],
        None => false,
    }
}

/// Whether an item of the cell at this place is marked.
fn holds_marked(heap: &Heap, place: usize, marks: &[bool]) -> bool
    ensures { IsTrue result ↔ HoldsMarked heap.now marks.now place }
{
    for at in 0..heap.child_count(place) {
        let Some(item) = heap.child_at(place, at) else {
            unreachable!()
        };
        if is_marked(heap, item, marks) {
            return true;
        }
    }
    false
}

/// Adds a mark at the end.
fn push_mark(marks: &mut Vec<bool>, mark: bool) -> Result<(), NoMemory>
    ensures { OnOk result (marks.new.items ≡ marks.old.items ++ mark ∷ []) }
{
    match marks.push(mark) {
        Ok(()) => Ok(()),
        Err(_) => Err(NoMemory),
    }
}

/// Marks each array and associative array.
fn first_marks(alloc: Global, heap: &Heap) -> Result<Vec<bool>, NoMemory>
    ensures { IfOk result (λ marks. Marks heap.now 1 marks.items) }
{
    let mut marks = Vec::new(alloc);
    for place in 0..heap.places() {
        push_mark(&mut marks, heap.holds_items(place))?;
    }
    Ok(marks)
}

/// Marks the cells at which a chain of one more begins.
fn next_marks(alloc: Global, heap: &Heap, marks: &[bool]) -> Result<Vec<bool>, NoMemory>
    ensures { IfOk result (λ next. (n : ℕ) → 0 < n → Marks heap.now n marks.now → Marks heap.now (n + 1) next.items) }
{
    let mut next = Vec::new(alloc);
    for place in 0..heap.places() {
        push_mark(&mut next, holds_marked(heap, place, marks))?;
    }
    Ok(next)
}

/// Whether a chain of so many arrays or associative arrays begins at the value. Each round over
/// the cells marks those at which a chain of one more begins.
pub fn begins_chain(alloc: Global, heap: &Heap, v: &Value, count: u32) -> Result<bool, NoMemory>
    requires { 0 < count }
    ensures { IfOk result (λ found. IsTrue found ↔ Chain (form_at heap.now) count v.now) }
{
    let mut marks = first_marks(alloc, heap)?;
    for round in 1..count {
        if !is_marked(heap, v, &marks) {
            return Ok(false);
        }
        marks = next_marks(alloc, heap, &marks)?;
    }
    Ok(is_marked(heap, v, &marks))
}
