//! The `m` with which a home begins.
ghost use Rattle.std.specs.Prelude.{◌≡◌, ◌<◌, ◌^◌, IfOk, OnOk};
ghost use Rattle.chan_values.specs.Tree.{pairs_of};
ghost use Rattle.chan_values.specs.Folded.{folded};
ghost use Rattle.heap_meaning.specs.Heap.{content_at, SetsKey};
ghost use Rattle.heap_meaning.specs.Reading.{HoldsPairs, length_in};
ghost use Rattle.heap_meaning.specs.Framing.{GrowsByKey};
ghost use Rattle.copy_meaning.specs.Laying.{LaysDown};

use brs_copy::copy_in;
use brs_heap::{Heap, SetFault, Value};
use chan_values::{NoMemory, PairList, Text};
use std::alloc::Global;

/// Puts a value at a key of an associative array, far below its bound.
fn put_value(heap: &mut Heap, map: &Value, key: &Text, value: Value) -> Result<(), NoMemory>
    requires pairs { HoldsPairs (content_at heap.old map.now) }
    requires room { length_in (content_at heap.old map.now) < 2 ^ 20 }
    ensures set { OnOk result (SetsKey heap.old heap.new map.now key.now value) }
    ensures grows { OnOk result (GrowsByKey heap.old heap.new map.now (folded key.now) value) }
    ensures shares { heap.new.shares ≡ heap.old.shares }
{
    match heap.set_key(map, key.as_str().as_bytes(), value) {
        Ok(()) => Ok(()),
        Err(SetFault::NoMemory(_)) => Err(NoMemory),
        Err(SetFault::TooLong(_)) => unreachable!(),
    }
}

/// A new associative array of these pairs. After `NoMemory` nothing more is said of the heap.
pub fn first_m(alloc: Global, heap: &mut Heap, pairs: &PairList) -> Result<Value, NoMemory>
    ensures lays { IfOk result (λ v. LaysDown heap.old heap.new v (pairs_of pairs.now)) }
    ensures shares { heap.new.shares ≡ heap.old.shares }
{
    let map = heap.make_pairs()?;
    for pair in pairs.as_slice() {
        let value = copy_in(alloc, heap, &pair.value)?;
        put_value(heap, &map, &pair.key, value)?;
    }
    Ok(map)
}
