//! Portable values that are laid down in a heap.
ghost use Rattle.std.specs.Prelude.{◌≡◌, ◌^◌, ◌<◌, IsUtf8, IfOk, OnOk};
ghost use Rattle.chan_values.specs.Tree as t;
ghost use Rattle.chan_values.specs.Tree.{array_of, pairs_of};
ghost use Rattle.chan_values.specs.View.{tree_of};
ghost use Rattle.chan_values.specs.Folded.{folded};
ghost use Rattle.heap_meaning.specs.Heap.{content_at, SetsItem, SetsKey};
ghost use Rattle.heap_meaning.specs.Reading.{HoldsArray, HoldsPairs, length_in};
ghost use Rattle.heap_meaning.specs.Framing.{Grows, GrowsByKey, Keeps};
ghost use Rattle.copy_meaning.specs.Laying.{LaysDown};

use brs_heap::{Heap, Plain, SetFault, Value};
use chan_values::{ItemList, NoMemory, PairList, Portable, Text, copy_text};
use std::alloc::Global;

/// Puts an item into an array, far below its bound.
fn put_item(heap: &mut Heap, array: &Value, at: usize, item: Value) -> Result<(), NoMemory>
    requires array { HoldsArray (content_at heap.old array.now) }
    requires at { at < 2 ^ 20 }
    ensures set { OnOk result (SetsItem heap.old heap.new array.now at item) }
    ensures grows { OnOk result (Grows heap.old heap.new array.now at item) }
    ensures shares { heap.new.shares ≡ heap.old.shares }
{
    match heap.set(array, at, item) {
        Ok(()) => Ok(()),
        Err(SetFault::NoMemory(_)) => Err(NoMemory),
        Err(SetFault::TooLong(_)) => unreachable!(),
    }
}

/// Puts a value into an associative array, far below its bound.
fn put_value(heap: &mut Heap, map: &Value, key: &Text, value: Value) -> Result<(), NoMemory>
    requires pairs { HoldsPairs (content_at heap.old map.now) }
    requires room { length_in (content_at heap.old map.now) < 2 ^ 20 }
    ensures set { OnOk result (SetsKey heap.old heap.new map.now key.now value) }
    ensures grows { OnOk result (GrowsByKey heap.old heap.new map.now (folded key.now) value) }
    ensures shares { heap.new.shares ≡ heap.old.shares }
{
    match heap.set_key(map, key.as_str().as_bytes(), value) {
        Ok(()) => Ok(()),
        Err(SetFault::NoMemory(_)) => Err(NoMemory),
        Err(SetFault::TooLong(_)) => unreachable!(),
    }
}

/// Lays items down as a new array.
#[cycle(lay)]
fn lay_items(alloc: Global, heap: &mut Heap, items: &ItemList) -> Result<Value, NoMemory>
    ensures lays { IfOk result (λ v. LaysDown heap.old heap.new v (array_of items.now)) }
    ensures keeps { OnOk result (Keeps heap.old heap.new) }
    ensures shares { heap.new.shares ≡ heap.old.shares }
{
    let array = heap.make_array()?;
    for (at, item) in items.as_slice().iter().enumerate() {
        let item = copy_in(alloc, heap, item)?;
        put_item(heap, &array, at, item)?;
    }
    Ok(array)
}

/// Lays pairs down as a new associative array.
#[cycle(lay)]
fn lay_pairs(alloc: Global, heap: &mut Heap, pairs: &PairList) -> Result<Value, NoMemory>
    ensures lays { IfOk result (λ v. LaysDown heap.old heap.new v (pairs_of pairs.now)) }
    ensures keeps { OnOk result (Keeps heap.old heap.new) }
    ensures shares { heap.new.shares ≡ heap.old.shares }
{
    let map = heap.make_pairs()?;
    for pair in pairs.as_slice() {
        let value = copy_in(alloc, heap, &pair.value)?;
        put_value(heap, &map, &pair.key, value)?;
    }
    Ok(map)
}

/// Lays a portable value down: each of its arrays and associative arrays is a new object, and they
/// are numbered in preorder. No share is taken. After `NoMemory` nothing more is said of the heap.
#[cycle(lay)]
pub fn copy_in(alloc: Global, heap: &mut Heap, p: &Portable) -> Result<Value, NoMemory>
    ensures lays { IfOk result (λ v. LaysDown heap.old heap.new v (tree_of p.now)) }
    ensures keeps { OnOk result (Keeps heap.old heap.new) }
    ensures shares { heap.new.shares ≡ heap.old.shares }
{
    match p {
        Portable::Nothing => Ok(Value::plain(Plain::Invalid)),
        Portable::Truth(b) => Ok(Value::plain(Plain::Truth(*b))),
        Portable::Small(n) => Ok(Value::plain(Plain::Small(*n))),
        Portable::Big(n) => Ok(Value::plain(Plain::Big(*n))),
        Portable::Node(n) => Ok(Value::plain(Plain::Node(*n))),
        Portable::Port(n) => Ok(Value::plain(Plain::Port(*n))),
        Portable::Words(text) => {
            let text = copy_text(alloc, text)?;
            heap.make_text(text)
        }
        Portable::Items(items) => lay_items(alloc, heap, items),
        Portable::Pairs(pairs) => lay_pairs(alloc, heap, pairs),
    }
}
