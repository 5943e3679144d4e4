//! The methods of associative arrays.
ghost use Rattle.std.specs.Prelude.{◌≡◌, ◌+◌, ◌<◌, ◌≤◌, [], ◌∷◌, IfOk, OnOk};
ghost use Rattle.std.specs.List.{remove};
ghost use Rattle.heap_meaning.specs.Heap.{content_at};
ghost use Rattle.heap_meaning.specs.Reading.{HoldsPairs, text_in};
ghost use Rattle.object_operations.specs.Applies.{AppliesToMap, MapBecomes};
ghost use Rattle.object_operations.specs.Maps.{method_of_map};
ghost use Rattle.object_operations.specs.declared.map_method.MapMethod.TheVariants.{AddReplace, Clear, Lookup, DoesExist, Delete, Count};

use crate::Applied;
use crate::numbers::count_value;
use brs_heap::{Heap, Plain, SetFault, Value};
use chan_values::{ErrorCode, NoMemory, Text, copy_text};
use std::alloc::Global;

/// A copy of a text, `None` where the value is none, so that the heap can be written while it is read.
fn text_copy(alloc: Global, heap: &Heap, v: &Value) -> Result<Option<Text>, NoMemory>
    ensures { IfOk result (λ text. text ≡ text_in (content_at heap.now v.now)) }
{
    match heap.text(v) {
        None => Ok(None),
        Some(text) => Ok(Some(copy_text(alloc, text)?)),
    }
}

/// `addReplace(k, v)`, and the write of a member.
pub fn put(
    alloc: Global,
    heap: &mut Heap,
    pairs: &Value,
    key: &Value,
    item: &Value,
) -> Result<Applied, NoMemory>
    requires pairs { HoldsPairs (content_at heap.old pairs.now) }
    requires shares { 0 < heap.old.shares }
    ensures answer { IfOk result (λ r. AppliesToMap heap.old heap.new pairs.now (key.now ∷ item.now ∷ []) r (method_of_map AddReplace)) }
    ensures shares { heap.old.shares ≤ heap.new.shares + 1 }
{
    let Some(key) = text_copy(alloc, heap, key)? else {
        return Ok(Applied::Raised(ErrorCode::E2));
    };
    let shared = heap.share(item);
    match heap.set_key(pairs, key.as_str().as_bytes(), shared) {
        Ok(()) => Ok(Applied::Value(Value::plain(Plain::Invalid))),
        Err(SetFault::NoMemory(_)) => Err(NoMemory),
        Err(SetFault::TooLong(item)) => {
            heap.release(item);
            Ok(Applied::Raised(ErrorCode::E12))
        }
    }
}

/// `lookup(k)`, and the read of a member.
pub fn lookup(
    alloc: Global,
    heap: &mut Heap,
    pairs: &Value,
    key: &Value,
) -> Result<Applied, NoMemory>
    requires shares { 0 < heap.old.shares }
    ensures answer { IfOk result (λ r. AppliesToMap heap.old heap.new pairs.now (key.now ∷ []) r (method_of_map Lookup)) }
    ensures shares { heap.old.shares ≤ heap.new.shares + 1 }
{
    let Some(key) = text_copy(alloc, heap, key)? else {
        return Ok(Applied::Raised(ErrorCode::E2));
    };
    match heap.share_key(pairs, key.as_str().as_bytes()) {
        None => Ok(Applied::Value(Value::plain(Plain::Invalid))),
        Some(item) => Ok(Applied::Value(item)),
    }
}

/// `doesExist(k)`
pub fn exists(heap: &Heap, pairs: &Value, key: &Value) -> Applied
    ensures answer { AppliesToMap heap.now heap.now pairs.now (key.now ∷ []) result (method_of_map DoesExist) }
{
    match heap.text(key) {
        None => Applied::Raised(ErrorCode::E2),
        Some(key) => {
            let there = heap.get_key(pairs, key.as_str().as_bytes()).is_some();
            Applied::Value(Value::plain(Plain::Truth(there)))
        }
    }
}

/// `delete(k)`
pub fn delete_key(
    alloc: Global,
    heap: &mut Heap,
    pairs: &Value,
    key: &Value,
) -> Result<Applied, NoMemory>
    ensures answer { IfOk result (λ r. AppliesToMap heap.old heap.new pairs.now (key.now ∷ []) r (method_of_map Delete)) }
    ensures shares { heap.new.shares ≡ heap.old.shares }
{
    let Some(key) = text_copy(alloc, heap, key)? else {
        return Ok(Applied::Raised(ErrorCode::E2));
    };
    match heap.take_key(pairs, key.as_str().as_bytes()) {
        None => Ok(Applied::Value(Value::plain(Plain::Truth(false)))),
        Some(item) => {
            heap.release(item);
            Ok(Applied::Value(Value::plain(Plain::Truth(true))))
        }
    }
}

/// `count()`
pub fn count_keys(heap: &Heap, pairs: &Value) -> Applied
    ensures answer { AppliesToMap heap.now heap.now pairs.now [] result (method_of_map Count) }
{
    Applied::Value(count_value(heap.length(pairs)))
}

/// Takes the key at a place in ascending order out with its value, if there is one.
fn drop_key(alloc: Global, heap: &mut Heap, pairs: &Value, at: usize) -> Result<(), NoMemory>
    ensures dropped { OnOk result (MapBecomes heap.old heap.new pairs.now (λ entries. remove entries at)) }
    ensures shares { heap.new.shares ≡ heap.old.shares }
{
    let key = match heap.key_at(pairs, at) {
        None => return Ok(()),
        Some(key) => copy_text(alloc, key)?,
    };
    match heap.take_key(pairs, key.as_str().as_bytes()) {
        None => Ok(()),
        Some(item) => {
            heap.release(item);
            Ok(())
        }
    }
}

/// `clear()`
pub fn clear_keys(alloc: Global, heap: &mut Heap, pairs: &Value) -> Result<Applied, NoMemory>
    ensures answer { IfOk result (λ r. AppliesToMap heap.old heap.new pairs.now [] r (method_of_map Clear)) }
    ensures shares { heap.new.shares ≡ heap.old.shares }
{
    let mut left = heap.length(pairs);
    while left > 0 {
        left -= 1;
        drop_key(alloc, heap, pairs, left)?;
    }
    Ok(Applied::Value(Value::plain(Plain::Invalid)))
}
