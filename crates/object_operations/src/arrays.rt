//! The methods of arrays.
ghost use Rattle.std.specs.Prelude.{◌≡◌, ◌+◌, ◌-◌, ◌^◌, ◌<◌, ◌≤◌, [], ◌∷◌, IfOk, OnOk, slice_get};
ghost use Rattle.heap_meaning.specs.Heap.{content_at};
ghost use Rattle.heap_meaning.specs.Reading.{HoldsArray, item_in, length_in};
ghost use Rattle.object_operations.specs.Applies.{AppliesToArray, ArrayBecomes, Appends};
ghost use Rattle.std.specs.List.{remove};
ghost use Rattle.std.specs.Option.{is_some};
ghost use Rattle.object_operations.specs.Arrays.{inserted, taken, item_list, method_of_array};
ghost use Rattle.object_operations.specs.declared.array_method.ArrayMethod.TheVariants.{Push, Unshift, Pop, Shift, Peek, Delete, Count, Clear, Append};

use crate::Applied;
use crate::numbers::{count_value, number, place};
use brs_heap::{Heap, Plain, Value};
use chan_values::{ErrorCode, NoMemory};

/// An array has at most so many items.
const MAX_LENGTH: usize = 1 << 20;

/// Puts an item before those from a place of an array on.
fn insert_at(heap: &mut Heap, array: &Value, at: usize, item: &Value) -> Result<Applied, NoMemory>
    requires array { HoldsArray (content_at heap.old array.now) }
    requires at { at ≤ length_in (content_at heap.old array.now) }
    requires shares { 0 < heap.old.shares }
    ensures answer { IfOk result (λ r. AppliesToArray heap.old heap.new array.now (item.now ∷ []) r (inserted at)) }
    ensures shares { heap.old.shares ≤ heap.new.shares + 1 }
{
    if heap.length(array) >= MAX_LENGTH {
        return Ok(Applied::Raised(ErrorCode::E12));
    }
    let item = heap.share(item);
    match heap.insert(array, at, item) {
        Ok(()) => Ok(Applied::Value(Value::plain(Plain::Invalid))),
        Err(_) => Err(NoMemory),
    }
}

/// `push(v)`
pub fn push(heap: &mut Heap, array: &Value, item: &Value) -> Result<Applied, NoMemory>
    requires array { HoldsArray (content_at heap.old array.now) }
    requires shares { 0 < heap.old.shares }
    ensures answer { IfOk result (λ r. AppliesToArray heap.old heap.new array.now (item.now ∷ []) r (method_of_array Push)) }
    ensures shares { heap.old.shares ≤ heap.new.shares + 1 }
{
    let end = heap.length(array);
    insert_at(heap, array, end, item)
}

/// `unshift(v)`
pub fn unshift(heap: &mut Heap, array: &Value, item: &Value) -> Result<Applied, NoMemory>
    requires array { HoldsArray (content_at heap.old array.now) }
    requires shares { 0 < heap.old.shares }
    ensures answer { IfOk result (λ r. AppliesToArray heap.old heap.new array.now (item.now ∷ []) r (method_of_array Unshift)) }
    ensures shares { heap.old.shares ≤ heap.new.shares + 1 }
{
    insert_at(heap, array, 0, item)
}

/// Takes the item at a place out.
fn take_at(heap: &mut Heap, array: &Value, at: usize) -> Applied
    ensures answer { AppliesToArray heap.old heap.new array.now [] result (λ n items more store. taken n items at store) }
    ensures shares { heap.new.shares ≡ heap.old.shares }
{
    match heap.take_item(array, at) {
        None => Applied::Value(Value::plain(Plain::Invalid)),
        Some(item) => Applied::Value(item),
    }
}

/// `pop()`
pub fn pop(heap: &mut Heap, array: &Value) -> Applied
    ensures answer { AppliesToArray heap.old heap.new array.now [] result (method_of_array Pop) }
    ensures shares { heap.new.shares ≡ heap.old.shares }
{
    let last = heap.length(array).saturating_sub(1);
    take_at(heap, array, last)
}

/// `shift()`
pub fn shift(heap: &mut Heap, array: &Value) -> Applied
    ensures answer { AppliesToArray heap.old heap.new array.now [] result (method_of_array Shift) }
    ensures shares { heap.new.shares ≡ heap.old.shares }
{
    take_at(heap, array, 0)
}

/// `peek()`
pub fn peek(heap: &mut Heap, array: &Value) -> Applied
    requires shares { 0 < heap.old.shares }
    ensures answer { AppliesToArray heap.old heap.new array.now [] result (method_of_array Peek) }
    ensures shares { heap.old.shares ≤ heap.new.shares + 1 }
{
    let last = heap.length(array).saturating_sub(1);
    match heap.share_item(array, last) {
        None => Applied::Value(Value::plain(Plain::Invalid)),
        Some(item) => Applied::Value(item),
    }
}

/// `count()`
pub fn count(heap: &Heap, array: &Value) -> Applied
    ensures answer { AppliesToArray heap.now heap.now array.now [] result (method_of_array Count) }
{
    Applied::Value(count_value(heap.length(array)))
}

/// Takes the item at a place out and releases it. It is true exactly where there was one.
pub(crate) fn drop_item(heap: &mut Heap, array: &Value, at: usize) -> bool
    ensures dropped { ArrayBecomes heap.old heap.new array.now (λ items. remove items at) }
    ensures there { result ≡ is_some (item_in (content_at heap.old array.now) at) }
    ensures shares { heap.new.shares ≡ heap.old.shares }
{
    match heap.take_item(array, at) {
        None => false,
        Some(item) => {
            heap.release(item);
            true
        }
    }
}

/// `delete(i)`
pub fn delete(heap: &mut Heap, array: &Value, i: &Value) -> Applied
    ensures answer { AppliesToArray heap.old heap.new array.now (i.now ∷ []) result (method_of_array Delete) }
    ensures shares { heap.new.shares ≡ heap.old.shares }
{
    let Some(n) = number(heap, i) else {
        return Applied::Raised(ErrorCode::E2);
    };
    match place(n) {
        None => Applied::Value(Value::plain(Plain::Truth(false))),
        Some(at) => {
            let there = drop_item(heap, array, at);
            Applied::Value(Value::plain(Plain::Truth(there)))
        }
    }
}

/// `clear()`
pub fn clear(heap: &mut Heap, array: &Value) -> Applied
    ensures answer { AppliesToArray heap.old heap.new array.now [] result (method_of_array Clear) }
    ensures shares { heap.new.shares ≡ heap.old.shares }
{
    let mut left = heap.length(array);
    while left > 0 {
        left -= 1;
        drop_item(heap, array, left);
    }
    Applied::Value(Value::plain(Plain::Invalid))
}

/// Puts the item that another array has at a place, if there is one, at the end.
fn append_item(heap: &mut Heap, array: &Value, from: &Value, at: usize) -> Result<(), NoMemory>
    requires array { HoldsArray (content_at heap.old array.now) }
    requires shares { 0 < heap.old.shares }
    ensures appended { OnOk result (Appends heap.old heap.new array.now from.now (λ more. item_list (slice_get more at))) }
    ensures array { OnOk result (HoldsArray (content_at heap.new array.now)) }
    ensures shares { heap.old.shares ≤ heap.new.shares + 1 }
{
    let Some(item) = heap.share_item(from, at) else {
        return Ok(());
    };
    let end = heap.length(array);
    match heap.insert(array, end, item) {
        Ok(()) => Ok(()),
        Err(_) => Err(NoMemory),
    }
}

/// `append(a)`
pub fn append(heap: &mut Heap, array: &Value, from: &Value) -> Result<Applied, NoMemory>
    requires array { HoldsArray (content_at heap.old array.now) }
    requires shares { 2 ^ 20 ≤ heap.old.shares }
    ensures answer { IfOk result (λ r. AppliesToArray heap.old heap.new array.now (from.now ∷ []) r (method_of_array Append)) }
    ensures shares { heap.old.shares ≤ heap.new.shares + 2 ^ 20 }
{
    if !heap.holds_array(from) {
        return Ok(Applied::Raised(ErrorCode::E2));
    }
    let more = heap.length(from);
    if more > MAX_LENGTH || heap.length(array) > MAX_LENGTH - more {
        return Ok(Applied::Raised(ErrorCode::E12));
    }
    for at in 0..more {
        append_item(heap, array, from, at)?;
    }
    Ok(Applied::Value(Value::plain(Plain::Invalid)))
}
