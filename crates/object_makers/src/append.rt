//! `append(aa)` of an associative array.
ghost use Rattle.std.specs.Prelude.{◌≡◌, ◌+◌, ◌^◌, ◌<◌, ◌≤◌, [], ◌∷◌, IfOk, OnOk, slice_get};
ghost use Rattle.chan_values.specs.Portable.{IsKeyList};
ghost use Rattle.heap_meaning.specs.Heap.{content_at};
ghost use Rattle.heap_meaning.specs.Reading.{keys_in, length_in};
ghost use Rattle.object_operations.specs.Applies.{Applies, AppliesToMap};
ghost use Rattle.object_operations.specs.Maps.{append_keys_row};
ghost use Rattle.object_operations.specs.Receivers.{on_map};
ghost use Rattle.object_makers.specs.Joins.{Joins, Lacks, LacksKey, entry_list};

use brs_heap::{Heap, Plain, SetFault, Value};
use chan_values::{ErrorCode, NoMemory, copy_text};
use object_operations::{Applied, Receiver, receiver_of, refusal};
use std::alloc::Global;

/// An associative array has at most so many keys.
const MAX_KEYS: usize = 1 << 20;

/// Whether an associative array lacks the key that another one has at a place in ascending order. Takes no memory.
fn lacks_key(heap: &Heap, pairs: &Value, from: &Value, at: usize) -> bool
    ensures lacks { LacksKey heap.now pairs.now from.now at result }
    ensures ordered { IsKeyList (keys_in (content_at heap.now from.now)) }
{
    match heap.key_at(from, at) {
        None => false,
        Some(key) => heap.get_key(pairs, key.as_str().as_bytes()).is_none(),
    }
}

/// How many keys of another associative array this one lacks. Takes no memory.
fn new_key_count(heap: &Heap, pairs: &Value, from: &Value) -> usize
    ensures count { Lacks heap.now pairs.now from.now result (λ more. more) }
    ensures ordered { 0 < length_in (content_at heap.now from.now) → IsKeyList (keys_in (content_at heap.now from.now)) }
{
    let mut count = 0;
    for at in 0..heap.length(from) {
        if lacks_key(heap, pairs, from, at) {
            count += 1;
        }
    }
    count
}

/// Puts the entry that another associative array has at a place, if there is one, in this one.
fn put_entry(
    alloc: Global,
    heap: &mut Heap,
    pairs: &Value,
    from: &Value,
    at: usize,
) -> Result<(), NoMemory>
    requires shares { 0 < heap.old.shares }
    ensures joins { OnOk result (Joins heap.old heap.new pairs.now from.now (λ more. entry_list (slice_get more at))) }
    ensures shares { heap.old.shares ≤ heap.new.shares + 1 }
{
    if !heap.holds_pairs(pairs) {
        return Ok(());
    }
    let key = match heap.key_at(from, at) {
        None => return Ok(()),
        Some(key) => copy_text(alloc, key)?,
    };
    let Some(item) = heap.share_key(from, key.as_str().as_bytes()) else {
        return Ok(());
    };
    match heap.set_key(pairs, key.as_str().as_bytes(), item) {
        Ok(()) => Ok(()),
        Err(SetFault::NoMemory(_) | SetFault::TooLong(_)) => Err(NoMemory),
    }
}

/// The further entries; the number of keys is judged first.
fn append_entries(
    alloc: Global,
    heap: &mut Heap,
    pairs: &Value,
    from: &Value,
) -> Result<Applied, NoMemory>
    requires shares { 2 ^ 20 ≤ heap.old.shares }
    ensures answer { IfOk result (λ r. AppliesToMap heap.old heap.new pairs.now (from.now ∷ []) r append_keys_row) }
    ensures shares { heap.old.shares ≤ heap.new.shares + 2 ^ 20 }
{
    if !heap.holds_pairs(from) {
        return Ok(Applied::Raised(ErrorCode::E2));
    }
    let more = heap.length(from);
    let old = heap.length(pairs);
    let new = new_key_count(heap, pairs, from);
    if more > MAX_KEYS || old > MAX_KEYS || new > MAX_KEYS - old {
        return Ok(Applied::Raised(ErrorCode::E12));
    }
    for at in 0..more {
        put_entry(alloc, heap, pairs, from, at)?;
    }
    Ok(Applied::Value(Value::plain(Plain::Invalid)))
}

/// The method of an associative array.
fn append_to_map(
    alloc: Global,
    heap: &mut Heap,
    pairs: &Value,
    arguments: &[Value],
) -> Result<Applied, NoMemory>
    requires shares { 2 ^ 20 ≤ heap.old.shares }
    ensures answer { IfOk result (λ r. AppliesToMap heap.old heap.new pairs.now arguments.now r append_keys_row) }
    ensures shares { heap.old.shares ≤ heap.new.shares + 2 ^ 20 }
{
    match arguments {
        [from] => append_entries(alloc, heap, pairs, from),
        _ => Ok(Applied::Raised(ErrorCode::E6)),
    }
}

/// A call of `append(aa)`: what it is called on, and the arguments. A value replaces that of an equal key. E7 on
/// `invalid`, E4 on what is no associative array, E6 at a wrong number of arguments, E2 where the argument is no
/// associative array, E12 where there would be more than 1,048,576 keys; then nothing has changed.
///
/// Source: BrightScript Language Reference, "ifAssociativeArray": Append.
pub fn call_append(alloc: Global, heap: &mut Heap, arguments: &[Value]) -> Result<Applied, NoMemory>
    requires shares { 2 ^ 20 ≤ heap.old.shares }
    ensures answer { IfOk result (λ r. Applies heap.old heap.new arguments.now r (on_map append_keys_row)) }
    ensures shares { heap.old.shares ≤ heap.new.shares + 2 ^ 20 }
{
    let [pairs, arguments @ ..] = arguments else {
        return Ok(Applied::Raised(ErrorCode::E6));
    };
    match receiver_of(heap, pairs) {
        Receiver::Pairs => append_to_map(alloc, heap, pairs, arguments),
        other => Ok(Applied::Raised(refusal(other, ErrorCode::E4))),
    }
}
