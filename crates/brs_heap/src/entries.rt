//! What changes in the entries of one cell.
ghost use Rattle.std.specs.Prelude.{◌≡◌, ℕ, ◌<◌, ◌≤◌, List, slice_get, slice_index_or, Some, IfOk, OnOk, IfErr, OnErr};
ghost use Rattle.chan_values.specs.Portable.{IsKeyList};
ghost use Rattle.heap_meaning.specs.Values.{filler};
ghost use Rattle.heap_meaning.specs.Keys.{with_key, without_key, IsGap};
ghost use Rattle.heap_meaning.specs.Reading.{HoldsPairs, keys_in, children_in, length_in};
ghost use Rattle.heap_meaning.specs.Framing.{EntriesChange};
ghost use Rattle.brs_heap.specs.Slots.{slot_at, slot_content, seen};
ghost use Rattle.brs_heap.specs.Sound.{Written};
ghost use Rattle.brs_heap.specs.declared.heap.SetFault.TheVariants.{NoMemory};

use crate::cell::{Cell, Content, Entry};
use crate::{SetFault, Value};
use slab::Slab;

/// The value of an entry, without its key.
fn value_of_entry(entry: Entry) -> Value
    ensures { result ≡ entry.value }
{
    let Entry { key: _, value } = entry;
    value
}

/// Puts the value into the entry at a place, and answers what stood there.
pub fn put_value(cells: &mut Slab<Cell>, place: usize, at: usize, item: Value) -> Value
    requires pairs { HoldsPairs (slot_content (slot_at cells.old.slots place)) }
    requires at { at < length_in (slot_content (slot_at cells.old.slots place)) }
    ensures written { (key : List ℕ) → slice_get (keys_in (slot_content (slot_at cells.old.slots place))) at ≡ Some key → IsKeyList (keys_in (slot_content (slot_at cells.old.slots place))) → Written cells.old.slots cells.new.slots place (EntriesChange (λ entries. with_key entries key item)) }
    ensures was { result ≡ slice_index_or (children_in (slot_content (slot_at cells.old.slots place))) at filler }
{
    match cells.get_mut(place) {
        None => unreachable!(),
        Some(cell) => match &mut cell.content {
            Content::Pairs(entries) => std::mem::replace(&mut entries[at].value, item),
            _ => unreachable!(),
        },
    }
}

/// Puts a new entry at the place where its key would stand. After an `Err` nothing has changed.
pub fn insert_entry(
    cells: &mut Slab<Cell>,
    place: usize,
    at: usize,
    entry: Entry,
) -> Result<(), SetFault>
    requires pairs { HoldsPairs (slot_content (slot_at cells.old.slots place)) }
    requires gap { IsGap (keys_in (slot_content (slot_at cells.old.slots place))) entry.key at }
    ensures written { OnOk result (Written cells.old.slots cells.new.slots place (EntriesChange (λ entries. with_key entries entry.key entry.value))) }
    ensures back { IfErr result (λ fault. fault ≡ NoMemory entry.value) }
    ensures unchanged { OnErr result (seen cells.new.slots ≡ seen cells.old.slots) }
{
    match cells.get_mut(place) {
        None => unreachable!(),
        Some(cell) => match &mut cell.content {
            Content::Pairs(entries) => match entries.insert(at, entry) {
                Ok(()) => Ok(()),
                Err(refused) => Err(SetFault::NoMemory(value_of_entry(refused.value))),
            },
            _ => unreachable!(),
        },
    }
}

/// Takes the entry at a place out, and answers its value.
pub fn take_entry(cells: &mut Slab<Cell>, place: usize, at: usize) -> Value
    requires pairs { HoldsPairs (slot_content (slot_at cells.old.slots place)) }
    requires at { at < length_in (slot_content (slot_at cells.old.slots place)) }
    ensures written { (key : List ℕ) → slice_get (keys_in (slot_content (slot_at cells.old.slots place))) at ≡ Some key → IsKeyList (keys_in (slot_content (slot_at cells.old.slots place))) → Written cells.old.slots cells.new.slots place (EntriesChange (λ entries. without_key entries key)) }
    ensures was { result ≡ slice_index_or (children_in (slot_content (slot_at cells.old.slots place))) at filler }
{
    match cells.get_mut(place) {
        None => unreachable!(),
        Some(cell) => match &mut cell.content {
            Content::Pairs(entries) => value_of_entry(entries.remove(at)),
            _ => unreachable!(),
        },
    }
}
