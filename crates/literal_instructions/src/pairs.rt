//! New associative arrays of keys and values.
ghost use Rattle.std.specs.Prelude.{◌≡◌, ◌+◌, ◌<◌, ◌≤◌, ◌^◌, [], ◌∷◌, length, map, IfOk, OnOk};
ghost use Rattle.chan_values.specs.Folded.{folded};
ghost use Rattle.object_operations.specs.Applies.{Applies};
ghost use Rattle.object_operations.specs.declared.applied.Applied.TheVariants as a;
ghost use Rattle.literal_instructions.specs.Literals.{Enters, pairs_row};

use brs_heap::{Heap, Value};
use chan_values::{NoMemory, Text};

/// An associative array has at most so many keys.
const MAX_KEYS: usize = 1 << 20;

/// Puts one more value like this one at a key of an associative array.
fn put_pair(heap: &mut Heap, pairs: &Value, key: &Text, item: &Value) -> Result<(), NoMemory>
    requires shares { 0 < heap.old.shares }
    ensures put { OnOk result (Enters heap.old heap.new pairs.now (key.now ∷ []) (item.now ∷ [])) }
    ensures shares { heap.old.shares ≤ heap.new.shares + 1 }
{
    if !heap.holds_pairs(pairs) {
        return Ok(());
    }
    let shared = heap.share(item);
    match heap.set_key(pairs, key.as_str().as_bytes(), shared) {
        Ok(()) => Ok(()),
        Err(_) => Err(NoMemory),
    }
}

/// A new associative array of these keys, folded, with these values. A later value replaces that of an equal key. Their number is judged
/// first, since no associative array has more than 1,048,576 keys.
pub fn pairs_of(heap: &mut Heap, keys: &[Text], items: &[Value]) -> Result<Value, NoMemory>
    requires shares { 2 ^ 20 ≤ heap.old.shares }
    requires each { length keys.now ≡ length items.now }
    ensures made { IfOk result (λ v. Applies heap.old heap.new items.now (a.Value v) (pairs_row (map folded keys.now))) }
    ensures shares { heap.old.shares ≤ heap.new.shares + 2 ^ 20 }
{
    if items.len() > MAX_KEYS {
        return Err(NoMemory);
    }
    let pairs = heap.make_pairs()?;
    for at in 0..items.len() {
        put_pair(heap, &pairs, &keys[at], &items[at])?;
    }
    Ok(pairs)
}
