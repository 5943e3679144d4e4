//! Calls of methods of associative arrays, by the method and the arguments.
ghost use Rattle.std.specs.Prelude.{◌≡◌, ◌+◌, ◌<◌, ◌≤◌, [], ◌∷◌, IfOk};
ghost use Rattle.heap_meaning.specs.Heap.{content_at};
ghost use Rattle.heap_meaning.specs.Reading.{HoldsPairs};
ghost use Rattle.object_operations.specs.Applies.{Applies, AppliesToMap};
ghost use Rattle.object_operations.specs.Maps.{map_row, method_of_map};

use crate::maps::{clear_keys, count_keys, delete_key, exists, lookup, put};
use crate::receiver::{Receiver, receiver_of, refusal};
use crate::{Applied, MapMethod};
use brs_heap::{Heap, Value};
use chan_values::{ErrorCode, NoMemory};
use std::alloc::Global;

/// A method without arguments.
fn bare_map_method(
    alloc: Global,
    heap: &mut Heap,
    method: MapMethod,
    pairs: &Value,
) -> Result<Applied, NoMemory>
    ensures answer { IfOk result (λ r. AppliesToMap heap.old heap.new pairs.now [] r (method_of_map method)) }
    ensures shares { heap.new.shares ≡ heap.old.shares }
{
    match method {
        MapMethod::Clear => clear_keys(alloc, heap, pairs),
        MapMethod::Count => Ok(count_keys(heap, pairs)),
        _ => Ok(Applied::Raised(ErrorCode::E6)),
    }
}

/// A method with one argument.
fn map_method_with(
    alloc: Global,
    heap: &mut Heap,
    method: MapMethod,
    pairs: &Value,
    v: &Value,
) -> Result<Applied, NoMemory>
    requires shares { 0 < heap.old.shares }
    ensures answer { IfOk result (λ r. AppliesToMap heap.old heap.new pairs.now (v.now ∷ []) r (method_of_map method)) }
    ensures shares { heap.old.shares ≤ heap.new.shares + 1 }
{
    match method {
        MapMethod::Lookup => lookup(alloc, heap, pairs, v),
        MapMethod::DoesExist => Ok(exists(heap, pairs, v)),
        MapMethod::Delete => delete_key(alloc, heap, pairs, v),
        _ => Ok(Applied::Raised(ErrorCode::E6)),
    }
}

/// A method with two arguments.
fn map_method_with_two(
    alloc: Global,
    heap: &mut Heap,
    method: MapMethod,
    pairs: &Value,
    k: &Value,
    v: &Value,
) -> Result<Applied, NoMemory>
    requires pairs { HoldsPairs (content_at heap.old pairs.now) }
    requires shares { 0 < heap.old.shares }
    ensures answer { IfOk result (λ r. AppliesToMap heap.old heap.new pairs.now (k.now ∷ v.now ∷ []) r (method_of_map method)) }
    ensures shares { heap.old.shares ≤ heap.new.shares + 1 }
{
    match method {
        MapMethod::AddReplace => put(alloc, heap, pairs, k, v),
        _ => Ok(Applied::Raised(ErrorCode::E6)),
    }
}

/// A method of an associative array.
fn map_method(
    alloc: Global,
    heap: &mut Heap,
    method: MapMethod,
    pairs: &Value,
    arguments: &[Value],
) -> Result<Applied, NoMemory>
    requires pairs { HoldsPairs (content_at heap.old pairs.now) }
    requires shares { 0 < heap.old.shares }
    ensures answer { IfOk result (λ r. AppliesToMap heap.old heap.new pairs.now arguments.now r (method_of_map method)) }
    ensures shares { heap.old.shares ≤ heap.new.shares + 1 }
{
    match arguments {
        [] => bare_map_method(alloc, heap, method, pairs),
        [v] => map_method_with(alloc, heap, method, pairs, v),
        [k, v] => map_method_with_two(alloc, heap, method, pairs, k, v),
        _ => Ok(Applied::Raised(ErrorCode::E6)),
    }
}

/// A call of a method of associative arrays: what it is called on, and the arguments.
pub fn call_map_method(
    alloc: Global,
    heap: &mut Heap,
    method: MapMethod,
    arguments: &[Value],
) -> Result<Applied, NoMemory>
    requires shares { 0 < heap.old.shares }
    ensures answer { IfOk result (λ r. Applies heap.old heap.new arguments.now r (map_row method)) }
    ensures shares { heap.old.shares ≤ heap.new.shares + 1 }
{
    let [pairs, arguments @ ..] = arguments else {
        return Ok(Applied::Raised(ErrorCode::E6));
    };
    match receiver_of(heap, pairs) {
        Receiver::Pairs => map_method(alloc, heap, method, pairs, arguments),
        other => Ok(Applied::Raised(refusal(other, ErrorCode::E4))),
    }
}
