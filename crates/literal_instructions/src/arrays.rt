//! New arrays of values.
ghost use Rattle.std.specs.Prelude.{◌≡◌, ◌+◌, ◌<◌, ◌≤◌, ◌^◌, [], ◌∷◌, IfOk, OnOk};
ghost use Rattle.heap_meaning.specs.Heap.{content_at};
ghost use Rattle.heap_meaning.specs.Reading.{HoldsArray};
ghost use Rattle.object_operations.specs.Applies.{Applies};
ghost use Rattle.object_operations.specs.declared.applied.Applied.TheVariants as a;
ghost use Rattle.literal_instructions.specs.Literals.{Extends, array_row};

use brs_heap::{Heap, Value};
use chan_values::NoMemory;

/// An array has at most so many items.
const MAX_LENGTH: usize = 1 << 20;

/// Puts one more value like this one at the end of an array.
fn push_item(heap: &mut Heap, array: &Value, item: &Value) -> Result<(), NoMemory>
    requires array { HoldsArray (content_at heap.old array.now) }
    requires shares { 0 < heap.old.shares }
    ensures pushed { OnOk result (Extends heap.old heap.new array.now (item.now ∷ [])) }
    ensures array { OnOk result (HoldsArray (content_at heap.new array.now)) }
    ensures shares { heap.old.shares ≤ heap.new.shares + 1 }
{
    let end = heap.length(array);
    let shared = heap.share(item);
    match heap.insert(array, end, shared) {
        Ok(()) => Ok(()),
        Err(_) => Err(NoMemory),
    }
}

/// A new array of these values, in their order. Their number is judged first, since no array is longer than 1,048,576 items.
pub fn array_of(heap: &mut Heap, items: &[Value]) -> Result<Value, NoMemory>
    requires shares { 2 ^ 20 ≤ heap.old.shares }
    ensures made { IfOk result (λ v. Applies heap.old heap.new items.now (a.Value v) array_row) }
    ensures shares { heap.old.shares ≤ heap.new.shares + 2 ^ 20 }
{
    if items.len() > MAX_LENGTH {
        return Err(NoMemory);
    }
    let array = heap.make_array()?;
    for item in items {
        push_item(heap, &array, item)?;
    }
    Ok(array)
}
