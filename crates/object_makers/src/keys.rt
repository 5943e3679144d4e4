//! `keys()` of an associative array.
ghost use Rattle.std.specs.Prelude.{◌≡◌, [], IfOk, OnOk, slice_get};
ghost use Rattle.heap_meaning.specs.Heap.{content_at};
ghost use Rattle.heap_meaning.specs.Reading.{HoldsArray};
ghost use Rattle.object_operations.specs.Applies.{Applies, AppliesToMap};
ghost use Rattle.object_operations.specs.Maps.{keys_row};
ghost use Rattle.object_operations.specs.Receivers.{on_map};
ghost use Rattle.object_makers.specs.KeyLists.{PushesKeys, key_list};

use brs_heap::{Heap, Value};
use chan_values::{ErrorCode, NoMemory, copy_text};
use object_operations::{Applied, Receiver, receiver_of, refusal};
use std::alloc::Global;

/// Puts the key at a place in ascending order, if there is one, at the end of an array.
fn push_key(
    alloc: Global,
    heap: &mut Heap,
    pairs: &Value,
    list: &Value,
    at: usize,
) -> Result<(), NoMemory>
    requires list { HoldsArray (content_at heap.old list.now) }
    ensures pushed { OnOk result (PushesKeys heap.old heap.new pairs.now list.now (λ keys. key_list (slice_get keys at))) }
    ensures list { OnOk result (HoldsArray (content_at heap.new list.now)) }
    ensures shares { heap.new.shares ≡ heap.old.shares }
{
    let text = match heap.key_at(pairs, at) {
        None => return Ok(()),
        Some(key) => copy_text(alloc, key)?,
    };
    let key = heap.make_text(text)?;
    let end = heap.length(list);
    match heap.insert(list, end, key) {
        Ok(()) => Ok(()),
        Err(_) => Err(NoMemory),
    }
}

/// A new array of the keys.
fn list_keys(alloc: Global, heap: &mut Heap, pairs: &Value) -> Result<Applied, NoMemory>
    ensures answer { IfOk result (λ r. AppliesToMap heap.old heap.new pairs.now [] r keys_row) }
    ensures shares { heap.new.shares ≡ heap.old.shares }
{
    let list = heap.make_array()?;
    for at in 0..heap.length(pairs) {
        push_key(alloc, heap, pairs, &list, at)?;
    }
    Ok(Applied::Value(list))
}

/// The method of an associative array.
fn keys_of_map(
    alloc: Global,
    heap: &mut Heap,
    pairs: &Value,
    arguments: &[Value],
) -> Result<Applied, NoMemory>
    ensures answer { IfOk result (λ r. AppliesToMap heap.old heap.new pairs.now arguments.now r keys_row) }
    ensures shares { heap.new.shares ≡ heap.old.shares }
{
    match arguments {
        [] => list_keys(alloc, heap, pairs),
        _ => Ok(Applied::Raised(ErrorCode::E6)),
    }
}

/// A call of `keys()`: what it is called on, and the arguments. It gives a new array of the folded keys in ascending
/// order. E7 on `invalid`, E4 on what is no associative array, E6 with an argument.
///
/// Source: BrightScript Language Reference, "ifAssociativeArray": Keys.
pub fn call_keys(alloc: Global, heap: &mut Heap, arguments: &[Value]) -> Result<Applied, NoMemory>
    ensures answer { IfOk result (λ r. Applies heap.old heap.new arguments.now r (on_map keys_row)) }
    ensures shares { heap.new.shares ≡ heap.old.shares }
{
    let [pairs, arguments @ ..] = arguments else {
        return Ok(Applied::Raised(ErrorCode::E6));
    };
    match receiver_of(heap, pairs) {
        Receiver::Pairs => keys_of_map(alloc, heap, pairs, arguments),
        other => Ok(Applied::Raised(refusal(other, ErrorCode::E4))),
    }
}
