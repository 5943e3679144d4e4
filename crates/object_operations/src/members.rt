//! Reads and writes of members and of indexes.
ghost use Rattle.std.specs.Prelude.{◌+◌, ◌<◌, ◌≤◌, [], ◌∷◌, IfOk};
ghost use Rattle.heap_meaning.specs.Heap.{content_at};
ghost use Rattle.heap_meaning.specs.Reading.{HoldsArray};
ghost use Rattle.object_operations.specs.Applies.{Applies, AppliesToArray};
ghost use Rattle.object_operations.specs.Members.{read_member_row, write_member_row, read_index_row, write_index_row, read_item, write_item};

use crate::Applied;
use crate::maps::{lookup, put};
use crate::numbers::{number, place};
use crate::receiver::{Receiver, receiver_of, refusal};
use brs_heap::{Heap, Plain, Value};
use chan_values::{ErrorCode, NoMemory};
use std::alloc::Global;

/// An array has at most so many items.
const MAX_LENGTH: usize = 1 << 20;

/// `x.k`, where `x` is no node: the value and the key, which is a String.
///
/// Source: BrightScript Language Reference, "Expressions, Variables, and Types": dot operator.
pub fn read_member(alloc: Global, heap: &mut Heap, arguments: &[Value]) -> Result<Applied, NoMemory>
    requires shares { 0 < heap.old.shares }
    ensures answer { IfOk result (λ r. Applies heap.old heap.new arguments.now r read_member_row) }
    ensures shares { heap.old.shares ≤ heap.new.shares + 1 }
{
    let [x, k] = arguments else {
        return Ok(Applied::Raised(ErrorCode::E6));
    };
    match receiver_of(heap, x) {
        Receiver::Pairs => lookup(alloc, heap, x, k),
        other => Ok(Applied::Raised(refusal(other, ErrorCode::E4))),
    }
}

/// `x.k = v`, where `x` is no node: the value, the key, which is a String, and the new value.
pub fn write_member(
    alloc: Global,
    heap: &mut Heap,
    arguments: &[Value],
) -> Result<Applied, NoMemory>
    requires shares { 0 < heap.old.shares }
    ensures answer { IfOk result (λ r. Applies heap.old heap.new arguments.now r write_member_row) }
    ensures shares { heap.old.shares ≤ heap.new.shares + 1 }
{
    let [x, k, v] = arguments else {
        return Ok(Applied::Raised(ErrorCode::E6));
    };
    match receiver_of(heap, x) {
        Receiver::Pairs => put(alloc, heap, x, k, v),
        other => Ok(Applied::Raised(refusal(other, ErrorCode::E4))),
    }
}

/// An array at a number.
fn item(heap: &mut Heap, array: &Value, i: &Value) -> Applied
    requires shares { 0 < heap.old.shares }
    ensures answer { AppliesToArray heap.old heap.new array.now (i.now ∷ []) result read_item }
    ensures shares { heap.old.shares ≤ heap.new.shares + 1 }
{
    let Some(n) = number(heap, i) else {
        return Applied::Raised(ErrorCode::E2);
    };
    match place(n) {
        None => Applied::Value(Value::plain(Plain::Invalid)),
        Some(at) => match heap.share_item(array, at) {
            None => Applied::Value(Value::plain(Plain::Invalid)),
            Some(item) => Applied::Value(item),
        },
    }
}

/// `x[i]`, where `x` is no node: the value and the index.
///
/// Source: BrightScript Language Reference, "Expressions, Variables, and Types": array operator.
pub fn read_index(alloc: Global, heap: &mut Heap, arguments: &[Value]) -> Result<Applied, NoMemory>
    requires shares { 0 < heap.old.shares }
    ensures answer { IfOk result (λ r. Applies heap.old heap.new arguments.now r read_index_row) }
    ensures shares { heap.old.shares ≤ heap.new.shares + 1 }
{
    let [x, i] = arguments else {
        return Ok(Applied::Raised(ErrorCode::E6));
    };
    match receiver_of(heap, x) {
        Receiver::Array => Ok(item(heap, x, i)),
        Receiver::Pairs => lookup(alloc, heap, x, i),
        other => Ok(Applied::Raised(refusal(other, ErrorCode::E2))),
    }
}

/// Puts a value at a number of an array, which grows past its end with `invalid`.
fn put_item(heap: &mut Heap, array: &Value, i: &Value, v: &Value) -> Result<Applied, NoMemory>
    requires array { HoldsArray (content_at heap.old array.now) }
    requires shares { 0 < heap.old.shares }
    ensures answer { IfOk result (λ r. AppliesToArray heap.old heap.new array.now (i.now ∷ v.now ∷ []) r write_item) }
    ensures shares { heap.old.shares ≤ heap.new.shares + 1 }
{
    let Some(n) = number(heap, i) else {
        return Ok(Applied::Raised(ErrorCode::E2));
    };
    let Some(at) = place(n) else {
        return Ok(Applied::Raised(ErrorCode::E2));
    };
    if at >= MAX_LENGTH {
        return Ok(Applied::Raised(ErrorCode::E12));
    }
    let shared = heap.share(v);
    match heap.set(array, at, shared) {
        Ok(()) => Ok(Applied::Value(Value::plain(Plain::Invalid))),
        Err(_) => Err(NoMemory),
    }
}

/// `x[i] = v`, where `x` is no node: the value, the index and the new value.
pub fn write_index(alloc: Global, heap: &mut Heap, arguments: &[Value]) -> Result<Applied, NoMemory>
    requires shares { 0 < heap.old.shares }
    ensures answer { IfOk result (λ r. Applies heap.old heap.new arguments.now r write_index_row) }
    ensures shares { heap.old.shares ≤ heap.new.shares + 1 }
{
    let [x, i, v] = arguments else {
        return Ok(Applied::Raised(ErrorCode::E6));
    };
    match receiver_of(heap, x) {
        Receiver::Array => put_item(heap, x, i, v),
        Receiver::Pairs => put(alloc, heap, x, i, v),
        other => Ok(Applied::Raised(refusal(other, ErrorCode::E2))),
    }
}
