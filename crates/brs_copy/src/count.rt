//! How many parts a value has, up to bounds on its depth and its parts.
ghost use Rattle.heap_meaning.specs.Heap.{content_at};
ghost use Rattle.heap_meaning.specs.Reading.{children_in};
ghost use Rattle.copy_meaning.specs.Bounded.{tree_within, each};
ghost use Rattle.copy_meaning.specs.Forms.{form_at};
ghost use Rattle.brs_copy.specs.Counts.{Counts, CountsAll};

use brs_heap::{Heap, Shape, Value};

/// What stopped a count.
#[derive(Clone, Copy, Debug, PartialEq, Eq)]
pub enum Excess {
    /// An array or associative array stands deeper than the bound.
    TooDeep,
    /// More parts than were left. Whether the value is too deep isn't known then.
    TooLarge,
}

/// Counts the parts of a value's items.
#[cycle(count)]
fn count_items(heap: &Heap, v: &Value, bound: u32, left: &mut u32) -> Result<(), Excess>
    ensures { CountsAll (each (tree_within (form_at heap.now) bound) (children_in (content_at heap.now v.now))) left.old left.new result }
{
    for at in 0..heap.length(v) {
        let Some(item) = heap.child(v, at) else {
            unreachable!()
        };
        count(heap, item, bound, left)?;
    }
    Ok(())
}

/// Counts the parts of a value, which are taken from those that are left. Takes no memory.
#[cycle(count)]
pub fn count(heap: &Heap, v: &Value, bound: u32, left: &mut u32) -> Result<(), Excess>
    ensures { Counts (tree_within (form_at heap.now) bound v.now) left.old left.new result }
{
    if *left == 0 {
        return Err(Excess::TooLarge);
    }
    *left -= 1;
    match heap.shape(v) {
        Shape::Plain | Shape::Words | Shape::Message => Ok(()),
        Shape::Array | Shape::Pairs => {
            if bound == 0 {
                return Err(Excess::TooDeep);
            }
            count_items(heap, v, bound - 1, left)
        }
    }
}
