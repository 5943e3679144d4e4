//! Calls of methods of arrays, by the method and the arguments.
ghost use Rattle.std.specs.Prelude.{◌+◌, ◌^◌, ◌<◌, ◌≤◌, [], ◌∷◌, IfOk};
ghost use Rattle.heap_meaning.specs.Heap.{content_at};
ghost use Rattle.heap_meaning.specs.Reading.{HoldsArray};
ghost use Rattle.object_operations.specs.Applies.{Applies, AppliesToArray};
ghost use Rattle.object_operations.specs.Arrays.{array_row, method_of_array};

use crate::arrays::{append, clear, count, delete, peek, pop, push, shift, unshift};
use crate::receiver::{Receiver, receiver_of, refusal};
use crate::{Applied, ArrayMethod};
use brs_heap::{Heap, Value};
use chan_values::{ErrorCode, NoMemory};

/// A method without arguments.
fn bare_array_method(heap: &mut Heap, method: ArrayMethod, array: &Value) -> Applied
    requires shares { 0 < heap.old.shares }
    ensures answer { AppliesToArray heap.old heap.new array.now [] result (method_of_array method) }
    ensures shares { heap.old.shares ≤ heap.new.shares + 1 }
{
    match method {
        ArrayMethod::Pop => pop(heap, array),
        ArrayMethod::Shift => shift(heap, array),
        ArrayMethod::Peek => peek(heap, array),
        ArrayMethod::Count => count(heap, array),
        ArrayMethod::Clear => clear(heap, array),
        _ => Applied::Raised(ErrorCode::E6),
    }
}

/// A method with one argument.
fn array_method_with(
    heap: &mut Heap,
    method: ArrayMethod,
    array: &Value,
    v: &Value,
) -> Result<Applied, NoMemory>
    requires array { HoldsArray (content_at heap.old array.now) }
    requires shares { 2 ^ 20 ≤ heap.old.shares }
    ensures answer { IfOk result (λ r. AppliesToArray heap.old heap.new array.now (v.now ∷ []) r (method_of_array method)) }
    ensures shares { heap.old.shares ≤ heap.new.shares + 2 ^ 20 }
{
    match method {
        ArrayMethod::Push => push(heap, array, v),
        ArrayMethod::Unshift => unshift(heap, array, v),
        ArrayMethod::Delete => Ok(delete(heap, array, v)),
        ArrayMethod::Append => append(heap, array, v),
        _ => Ok(Applied::Raised(ErrorCode::E6)),
    }
}

/// A method of an array.
fn array_method(
    heap: &mut Heap,
    method: ArrayMethod,
    array: &Value,
    arguments: &[Value],
) -> Result<Applied, NoMemory>
    requires array { HoldsArray (content_at heap.old array.now) }
    requires shares { 2 ^ 20 ≤ heap.old.shares }
    ensures answer { IfOk result (λ r. AppliesToArray heap.old heap.new array.now arguments.now r (method_of_array method)) }
    ensures shares { heap.old.shares ≤ heap.new.shares + 2 ^ 20 }
{
    match arguments {
        [] => Ok(bare_array_method(heap, method, array)),
        [v] => array_method_with(heap, method, array, v),
        _ => Ok(Applied::Raised(ErrorCode::E6)),
    }
}

/// A call of a method of arrays: what it is called on, and the arguments.
pub fn call_array_method(
    heap: &mut Heap,
    method: ArrayMethod,
    arguments: &[Value],
) -> Result<Applied, NoMemory>
    requires shares { 2 ^ 20 ≤ heap.old.shares }
    ensures answer { IfOk result (λ r. Applies heap.old heap.new arguments.now r (array_row method)) }
    ensures shares { heap.old.shares ≤ heap.new.shares + 2 ^ 20 }
{
    let [array, arguments @ ..] = arguments else {
        return Ok(Applied::Raised(ErrorCode::E6));
    };
    match receiver_of(heap, array) {
        Receiver::Array => array_method(heap, method, array, arguments),
        other => Ok(Applied::Raised(refusal(other, ErrorCode::E4))),
    }
}
