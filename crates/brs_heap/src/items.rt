//! What changes in the items of one cell.
ghost use Rattle.std.specs.Prelude.{◌≡◌, ◌+◌, ◌-◌, ◌^◌, ◌<◌, ◌≤◌, List, ◌∷◌, map, length, slice_get, slice_set, slice_index_or, Some, None, IfOk, OnOk, IfErr, OnErr, IfNone, OnSome, option_map};
ghost use Rattle.std.specs.List.{insert, remove};
ghost use Rattle.heap_meaning.specs.Values.{filler};
ghost use Rattle.heap_meaning.specs.Keys.{placed};
ghost use Rattle.heap_meaning.specs.Reading.{HoldsArray, item_in, children_in, length_in};
ghost use Rattle.heap_meaning.specs.Framing.{ItemsChange};
ghost use Rattle.brs_heap.specs.Slots.{slot_at, slot_content, seen};
ghost use Rattle.brs_heap.specs.Sound.{Written};
ghost use Rattle.brs_heap.specs.declared.heap.SetFault.TheVariants.{NoMemory};

use crate::cell::{Cell, Content};
use crate::{SetFault, Value};
use heap_meaning::Plain;
use slab::Slab;

fn place_in(items: &mut Vec<Value>, at: usize, item: Value) -> Result<Value, Value>
    requires { at < 2 ^ 20 }
    ensures was { IfOk result (λ old. old ≡ slice_index_or items.old.items at filler) }
    ensures items { OnOk result (items.new.items ≡ placed filler items.old.items at item) }
    ensures back { IfErr result (λ given. given ≡ item) }
    ensures unchanged { OnErr result (items.new.items ≡ items.old.items) }
{
    let len = items.len();
    if at < len {
        return Ok(std::mem::replace(&mut items[at], item));
    }
    if items.reserve(at - len + 1).is_err() {
        return Err(item);
    }
    for _i in len..at {
        items.push_reserved(Value::plain(Plain::Invalid));
    }
    items.push_reserved(item);
    Ok(Value::plain(Plain::Invalid))
}

/// Puts the item at a place of the array in this cell, and answers what stood there.
pub fn place_item(
    cells: &mut Slab<Cell>,
    place: usize,
    at: usize,
    item: Value,
) -> Result<Value, Value>
    requires array { HoldsArray (slot_content (slot_at cells.old.slots place)) }
    requires at { at < 2 ^ 20 }
    ensures written { OnOk result (Written cells.old.slots cells.new.slots place (ItemsChange (λ items. placed filler items at item))) }
    ensures was { IfOk result (λ old. old ≡ slice_index_or (children_in (slot_content (slot_at cells.old.slots place))) at filler) }
    ensures back { IfErr result (λ given. given ≡ item) }
    ensures unchanged { OnErr result (seen cells.new.slots ≡ seen cells.old.slots) }
{
    match cells.get_mut(place) {
        None => unreachable!(),
        Some(cell) => match &mut cell.content {
            Content::Array(items) => match place_in(items, at, item) {
                Ok(old) => Ok(old),
                Err(back) => Err(back),
            },
            _ => unreachable!(),
        },
    }
}

/// Puts the item before those from this place of the array on.
pub fn insert_item(
    cells: &mut Slab<Cell>,
    place: usize,
    at: usize,
    item: Value,
) -> Result<(), SetFault>
    requires array { HoldsArray (slot_content (slot_at cells.old.slots place)) }
    requires at { at ≤ length_in (slot_content (slot_at cells.old.slots place)) }
    ensures written { OnOk result (Written cells.old.slots cells.new.slots place (ItemsChange (λ items. insert items at item))) }
    ensures back { IfErr result (λ fault. fault ≡ NoMemory item) }
    ensures unchanged { OnErr result (seen cells.new.slots ≡ seen cells.old.slots) }
{
    match cells.get_mut(place) {
        None => unreachable!(),
        Some(cell) => match &mut cell.content {
            Content::Array(items) => match items.insert(at, item) {
                Ok(()) => Ok(()),
                Err(refused) => Err(SetFault::NoMemory(refused.value)),
            },
            _ => unreachable!(),
        },
    }
}

/// Takes the item at a place out of the array in this cell. Where there is none, nothing changes.
pub fn take_item_at(cells: &mut Slab<Cell>, place: usize, at: usize) -> Option<Value>
    ensures value { result ≡ item_in (slot_content (slot_at cells.old.slots place)) at }
    ensures written { OnSome result (Written cells.old.slots cells.new.slots place (ItemsChange (λ items. remove items at))) }
    ensures unchanged { IfNone result (seen cells.new.slots ≡ seen cells.old.slots) }
{
    match cells.get_mut(place) {
        None => None,
        Some(cell) => match &mut cell.content {
            Content::Array(items) => {
                if at < items.len() {
                    Some(items.remove(at))
                } else {
                    None
                }
            }
            _ => None,
        },
    }
}
