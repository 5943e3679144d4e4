//! Cells by their places, and what they hold by position, for walks over a whole heap.
ghost use Rattle.std.specs.Prelude.{◌≡◌, ◌↔◌, ◌≤◌, ℕ, None, IsTrue, slice_get, option_copied, option_map};
ghost use Rattle.heap_meaning.specs.Values.{Cell as AtCell};
ghost use Rattle.heap_meaning.specs.Heap.{content_at};
ghost use Rattle.heap_meaning.specs.Reading.{HoldsItems, children_in, length_in, place_of};
ghost use Rattle.brs_heap.specs.Content.{content_of};

use crate::cell::Content;
use crate::{Heap, Value};

impl Heap {
    /// The place of the value's cell, `None` exactly where it is plain. Takes no memory.
    pub fn place(&self, v: &Value) -> Option<usize>
        ensures { result ≡ place_of v.now }
    {
        v.place()
    }

    /// A bound on places: every cell stands below it. Takes no memory.
    pub fn places(&self) -> usize
        ensures { (place : ℕ) → result ≤ place → content_at self.now (AtCell place) ≡ None }
    {
        self.cells.capacity()
    }

    /// What the cell at a place holds.
    fn content_of_cell(&self, place: usize) -> Option<&Content>
        ensures { option_map content_of (option_copied result) ≡ content_at self.now (AtCell place) }
    {
        match self.cells.get(place) {
            None => None,
            Some(cell) => Some(&cell.content),
        }
    }

    /// Whether an array or an associative array stands at a place. Takes no memory.
    pub fn holds_items(&self, place: usize) -> bool
        ensures { IsTrue result ↔ HoldsItems (content_at self.now (AtCell place)) }
    {
        matches!(
            self.content_of_cell(place),
            Some(Content::Array(_) | Content::Pairs(_))
        )
    }

    /// How many items or keys there are at a place, 0 where neither an array nor an associative
    /// array stands there. Takes no memory.
    pub fn child_count(&self, place: usize) -> usize
        ensures { result ≡ length_in (content_at self.now (AtCell place)) }
    {
        match self.content_of_cell(place) {
            Some(Content::Array(items)) => items.len(),
            Some(Content::Pairs(entries)) => entries.len(),
            _ => 0,
        }
    }

    /// The item of the array at a place, or the value of the associative array there, by its
    /// position counted from 0: the values come in the order of their keys. `None` exactly where
    /// there is none. Takes no memory.
    pub fn child_at(&self, place: usize, at: usize) -> Option<&Value>
        ensures { option_copied result ≡ slice_get (children_in (content_at self.now (AtCell place))) at }
    {
        match self.content_of_cell(place) {
            Some(Content::Array(items)) => items.get(at),
            Some(Content::Pairs(entries)) => match entries.get(at) {
                None => None,
                Some(entry) => Some(&entry.value),
            },
            _ => None,
        }
    }

    /// The item of an array, or the value of an associative array, by its position as `child_at`
    /// has it. Takes no memory.
    pub fn child(&self, v: &Value, at: usize) -> Option<&Value>
        ensures { option_copied result ≡ slice_get (children_in (content_at self.now v.now)) at }
    {
        match v.place() {
            None => None,
            Some(place) => self.child_at(place, at),
        }
    }
}
