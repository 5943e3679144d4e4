//! What a heap lets be read.
ghost use Rattle.std.specs.Prelude.{◌≡◌, option_copied};
ghost use Rattle.std.specs.Prelude.{IsTrue, ◌↔◌, slice_get, map, IfSome, option_map};
ghost use Rattle.chan_values.specs.Folded.{folded};
ghost use Rattle.chan_values.specs.Portable.{IsKeyList};
ghost use Rattle.heap_meaning.specs.Keys.{keys_of};
ghost use Rattle.heap_meaning.specs.Heap.{content_at};
ghost use Rattle.heap_meaning.specs.Reading.{plain_of, shape_in, text_in, message_in, item_in, value_in, keys_in, entries_in, length_in, HoldsArray, HoldsPairs};
ghost use Rattle.brs_heap.specs.Content.{entry_of};

use crate::cell::{Content, Entry};
use crate::keys::find_key;
use crate::{Heap, Value};
use chan_values::{Message, Text};
use heap_meaning::{Plain, Shape};

impl Heap {
    /// The plain value that it is, `None` exactly where it has a cell. Takes no memory.
    pub fn plain(&self, v: &Value) -> Option<Plain>
        ensures { result ≡ plain_of v.now }
    {
        v.as_plain()
    }

    /// What kind of value it is. Takes no memory.
    pub fn shape(&self, v: &Value) -> Shape
        ensures { result ≡ shape_in (content_at self.now v.now) }
    {
        match self.content(v) {
            Some(Content::Text(_)) => Shape::Words,
            Some(Content::Array(_)) => Shape::Array,
            Some(Content::Pairs(_)) => Shape::Pairs,
            Some(Content::Message(_)) => Shape::Message,
            None => Shape::Plain,
        }
    }

    /// The text, `None` exactly where it is none. Takes no memory.
    pub fn text(&self, v: &Value) -> Option<&Text>
        ensures { option_copied result ≡ text_in (content_at self.now v.now) }
    {
        match self.content(v) {
            Some(Content::Text(text)) => Some(text),
            _ => None,
        }
    }

    /// The message, `None` exactly where it is none. Takes no memory.
    pub fn message(&self, v: &Value) -> Option<&Message>
        ensures { option_copied result ≡ message_in (content_at self.now v.now) }
    {
        match self.content(v) {
            Some(Content::Message(message)) => Some(message),
            _ => None,
        }
    }

    /// Whether it is an array, which `set` and `insert` need. Takes no memory.
    pub fn holds_array(&self, v: &Value) -> bool
        ensures { IsTrue result ↔ HoldsArray (content_at self.now v.now) }
    {
        matches!(self.content(v), Some(Content::Array(_)))
    }

    /// Whether it is an associative array, which `set_key` needs. Takes no memory.
    pub fn holds_pairs(&self, v: &Value) -> bool
        ensures { IsTrue result ↔ HoldsPairs (content_at self.now v.now) }
    {
        matches!(self.content(v), Some(Content::Pairs(_)))
    }

    /// How many items or keys there are, 0 where it is no array and no associative array. Takes no
    /// memory.
    pub fn length(&self, v: &Value) -> usize
        ensures { result ≡ length_in (content_at self.now v.now) }
    {
        match self.content(v) {
            Some(Content::Array(items)) => items.len(),
            Some(Content::Pairs(entries)) => entries.len(),
            _ => 0,
        }
    }

    /// The item at a place of an array, counted from 0, `None` exactly where there is none. Takes
    /// no memory.
    pub fn get(&self, v: &Value, at: usize) -> Option<&Value>
        ensures { option_copied result ≡ item_in (content_at self.now v.now) at }
    {
        match self.content(v) {
            Some(Content::Array(items)) => items.get(at),
            _ => None,
        }
    }

    /// The entries of an associative array.
    pub(crate) fn entries(&self, v: &Value) -> Option<&[Entry]>
        ensures entries { option_map (map entry_of) (option_copied result) ≡ entries_in (content_at self.now v.now) }
        ensures ordered { IfSome result (λ entries. IsKeyList (keys_of (map entry_of entries.now))) }
    {
        let _cells = &self.cells;
        match self.content(v) {
            Some(Content::Pairs(entries)) => Some(entries.as_slice()),
            _ => None,
        }
    }

    /// The value of an associative array at a key, whatever the case of its letters, `None` exactly
    /// where there is none. Takes no memory.
    pub fn get_key(&self, v: &Value, key: &[u8]) -> Option<&Value>
        ensures { option_copied result ≡ value_in (content_at self.now v.now) (folded key.now) }
    {
        let entries = self.entries(v)?;
        match find_key(entries, key) {
            Ok(at) => Some(&entries[at].value),
            Err(_) => None,
        }
    }

    /// The key at a place in ascending order, counted from 0, `None` exactly past the end. Takes no
    /// memory.
    pub fn key_at(&self, v: &Value, at: usize) -> Option<&Text>
        ensures key { option_copied result ≡ slice_get (keys_in (content_at self.now v.now)) at }
        ensures ascending { IsKeyList (keys_in (content_at self.now v.now)) }
    {
        match self.entries(v)?.get(at) {
            None => None,
            Some(entry) => Some(&entry.key),
        }
    }
}
