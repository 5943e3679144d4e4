//! Values that leave their heap.
ghost use Rattle.std.specs.Prelude.{◌≡◌, ◌≤◌};
ghost use Rattle.heap_meaning.specs.Store.{Store};
ghost use Rattle.heap_meaning.specs.Stands.{Naming, Outside, Stands, meaning};
ghost use Rattle.heap_meaning.specs.Heap.{Belongs};
ghost use Rattle.copy_meaning.specs.Forms.{form_at, form_in};
ghost use Rattle.brs_copy.specs.Copies.{Copies};

use crate::chain::begins_chain;
use crate::count::{Excess, count};
use crate::fill::fill;
use brs_heap::{Heap, Value};
use chan_values::{MAX_DEPTH, MAX_PARTS, NoMemory, Portable};
use std::alloc::Global;

/// Why a value was not copied.
#[derive(Clone, Copy, Debug, PartialEq, Eq)]
pub enum CopyFault {
    /// More than 64 arrays or associative arrays stand in one another.
    TooDeep,
    /// The value has more than 65,536 parts and is not too deep.
    TooLarge,
    /// Memory ran out.
    NoMemory,
}

/// Counts the parts first, and copies only what keeps both bounds. The count stops at the bounds:
/// where there are too many parts, rounds over the cells tell whether the value is too deep as
/// well.
fn copy_within(
    alloc: Global,
    heap: &Heap,
    v: &Value,
    bound: u32,
    most: u32,
) -> Result<Portable, CopyFault>
    requires bound { bound ≤ 64 }
    requires most { most ≤ 65536 }
    ensures { Copies (form_at heap.now) bound most v.now result }
{
    let mut left = most;
    match count(heap, v, bound, &mut left) {
        Ok(()) => match fill(alloc, heap, v, bound) {
            Ok(copy) => Ok(copy),
            Err(NoMemory) => Err(CopyFault::NoMemory),
        },
        Err(Excess::TooDeep) => Err(CopyFault::TooDeep),
        Err(Excess::TooLarge) => match begins_chain(alloc, heap, v, bound + 1) {
            Ok(true) => Err(CopyFault::TooDeep),
            Ok(false) => Err(CopyFault::TooLarge),
            Err(NoMemory) => Err(CopyFault::NoMemory),
        },
    }
}

/// The portable value to which a value unfolds. Functions, messages and the screen become
/// `invalid`; nodes and message ports stay what they are. A value that holds itself is too deep.
/// The time is linear in the parts of the copy, and where there is none it is at most that of 65
/// rounds over the heap.
///
/// Source: SceneGraph XML, "interface": fields of type array and assocarray are copied by value.
pub fn copy_out(alloc: Global, heap: &Heap, v: &Value) -> Result<Portable, CopyFault>
    ensures cells { Copies (form_at heap.now) 64 65536 v.now result }
    ensures store { (name : Naming) (store : Store) (outside : Outside) → Stands name heap.now.cells store outside → Belongs heap.now v.now → Copies (form_in store) 64 65536 (meaning name v.now) result }
{
    copy_within(alloc, heap, v, MAX_DEPTH, MAX_PARTS)
}
