//! Cells, and their counts.
ghost use Rattle.std.specs.Prelude.{◌≡◌, ◌+◌, ◌^◌, ◌<◌};
ghost use Rattle.brs_heap.specs.Slots.{slot_at, slot_count, lowered, raised};

use crate::Value;
use chan_values::{Message, Text};
use slab::Slab;

/// A folded key of an associative array with its value.
#[derive(Debug, Drop)]
pub struct Entry {
    pub key: Text,
    pub value: Value,
}

/// What a cell holds.
#[derive(Debug, Drop)]
pub enum Content {
    Text(Text),
    Array(Vec<Value>),
    /// The entries in ascending order of their keys.
    Pairs(Vec<Entry>),
    Message(Message),
}

/// A cell with the number of references to it.
#[derive(Debug, Drop)]
pub struct Cell {
    pub count: u64,
    pub content: Content,
}

/// Takes a reference to the cell at this place back.
pub fn lower(cells: &mut Slab<Cell>, place: usize)
    ensures { cells.new.slots ≡ lowered cells.old.slots place (slot_at cells.old.slots place) }
{
    if let Some(cell) = cells.get_mut(place) {
        if cell.count > 0 {
            cell.count -= 1;
        }
    }
}

/// Counts one more reference to the cell at this place.
pub fn raise(cells: &mut Slab<Cell>, place: usize)
    requires { slot_count (slot_at cells.old.slots place) < 2 ^ 63 + 1 }
    ensures { cells.new.slots ≡ raised cells.old.slots place (slot_at cells.old.slots place) }
{
    if let Some(cell) = cells.get_mut(place) {
        cell.count += 1;
    }
}
