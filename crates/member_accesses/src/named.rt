//! Members of associative arrays by the names that code has.
ghost use Rattle.std.specs.Prelude.{◌+◌, ◌<◌, ◌≤◌, [], ◌∷◌, IfOk};
ghost use Rattle.heap_meaning.specs.Heap.{content_at};
ghost use Rattle.heap_meaning.specs.Reading.{HoldsPairs};
ghost use Rattle.object_operations.specs.Applies.{Applies, AppliesToMap};
ghost use Rattle.member_accesses.specs.Named.{named_lookup, named_put, named_read, named_write};

use brs_heap::{Heap, Plain, SetFault, Value};
use chan_values::{ErrorCode, NoMemory, Text};
use object_operations::{Applied, Receiver, receiver_of, refusal};

/// The value of an associative array at a name. Takes no memory.
fn look_up(heap: &mut Heap, pairs: &Value, name: &Text) -> Applied
    requires shares { 0 < heap.old.shares }
    ensures answer { AppliesToMap heap.old heap.new pairs.now [] result (named_lookup name.now) }
    ensures shares { heap.old.shares ≤ heap.new.shares + 1 }
{
    match heap.share_key(pairs, name.as_str().as_bytes()) {
        None => Applied::Value(Value::plain(Plain::Invalid)),
        Some(item) => Applied::Value(item),
    }
}

/// `x.name`, where `x` is no node. Takes no memory.
pub fn read_named(heap: &mut Heap, x: &Value, name: &Text) -> Applied
    requires shares { 0 < heap.old.shares }
    ensures answer { Applies heap.old heap.new (x.now ∷ []) result (named_read name.now) }
    ensures shares { heap.old.shares ≤ heap.new.shares + 1 }
{
    match receiver_of(heap, x) {
        Receiver::Pairs => look_up(heap, x, name),
        other => Applied::Raised(refusal(other, ErrorCode::E4)),
    }
}

/// Puts a value at a name of an associative array.
fn put(heap: &mut Heap, pairs: &Value, name: &Text, item: &Value) -> Result<Applied, NoMemory>
    requires pairs { HoldsPairs (content_at heap.old pairs.now) }
    requires shares { 0 < heap.old.shares }
    ensures answer { IfOk result (λ r. AppliesToMap heap.old heap.new pairs.now (item.now ∷ []) r (named_put name.now)) }
    ensures shares { heap.old.shares ≤ heap.new.shares + 1 }
{
    let shared = heap.share(item);
    match heap.set_key(pairs, name.as_str().as_bytes(), shared) {
        Ok(()) => Ok(Applied::Value(Value::plain(Plain::Invalid))),
        Err(SetFault::NoMemory(_)) => Err(NoMemory),
        Err(SetFault::TooLong(item)) => {
            heap.release(item);
            Ok(Applied::Raised(ErrorCode::E12))
        }
    }
}

/// `x.name = v`, where `x` is no node.
pub fn write_named(heap: &mut Heap, x: &Value, name: &Text, v: &Value) -> Result<Applied, NoMemory>
    requires shares { 0 < heap.old.shares }
    ensures answer { IfOk result (λ r. Applies heap.old heap.new (x.now ∷ v.now ∷ []) r (named_write name.now)) }
    ensures shares { heap.old.shares ≤ heap.new.shares + 1 }
{
    match receiver_of(heap, x) {
        Receiver::Pairs => put(heap, x, name, v),
        other => Ok(Applied::Raised(refusal(other, ErrorCode::E4))),
    }
}
