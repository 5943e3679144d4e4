//! The heap: what is made in it, shared and taken back.
ghost use Rattle.std.specs.Prelude.{◌≡◌, ℕ, ◌+◌, ◌^◌, ◌<◌, ◌≤◌, [], IfSome, IfNone, IfOk, OnErr, option_copied, option_map};
ghost use Rattle.heap_meaning.specs.Values.{Value as One, Direct};
ghost use Rattle.heap_meaning.specs.Store.{ArrayObject, MapObject, MessageObject};
ghost use Rattle.heap_meaning.specs.Cells as c;
ghost use Rattle.heap_meaning.specs.Stands.{Naming, Stands};
ghost use Rattle.heap_meaning.specs.Reading.{item_in, value_in};
ghost use Rattle.heap_meaning.specs.Heap.{Belongs, Moves, no_references, references_of, content_at, MakesText, MakesObject};
ghost use Rattle.heap_meaning.specs.Framing.{Fresh};
ghost use Rattle.heap_meaning.specs.declared.plain.Plain as p;
ghost use Rattle.chan_values.specs.Folded.{folded};
ghost use Rattle.brs_heap.specs.Content.{content_of};
ghost use Rattle.brs_heap.specs.Sound.{InOrder};

use crate::Value;
use crate::cell::{Cell, Content, lower, raise};
use chan_values::{Message, NoMemory, Text};
use slab::Slab;
use std::alloc::Global;
use std::marker::Model;

/// Why an item was not stored. The item is handed back, and nothing has changed.
#[derive(Debug, Drop)]
pub enum SetFault {
    /// The array or associative array would have more than 1,048,576 items or keys.
    TooLong(Value),
    /// Memory ran out.
    NoMemory(Value),
}

/// The heap of one actor.
#[derive(Drop)]
pub struct Heap {
    pub(crate) cells: Slab<Cell>,
    shares: u64,
    pub(crate) alloc: Global,
}

impl Model for Heap {
    ghost use Rattle.heap_meaning.specs.Heap.{Heap as Shown};

    ghost Value = { Shown };

    ghost use Rattle.std.specs.Coded.{codes};
    ghost use Rattle.chan_values.specs.Codes.{tree_code};

    ghost coded = { Prim.hlevel (codes, tree_code) };

    ghost use Rattle.brs_heap.specs.Slots.{seen};
    ghost use Rattle.brs_heap.specs.Sound.{IsSound};

    ghost view = { λ h. record { cells = seen h.cells.slots; shares = h.shares } };

    ghost invariant = { λ h. IsSound (seen h.cells.slots) h.shares };
}

impl Heap {
    /// A heap with no cell and 2^63 shares. Takes no memory.
    pub fn new(alloc: Global) -> Heap
        ensures stands { (name : Naming) → Stands name result.cells [] no_references }
        ensures shares { result.shares ≡ 2 ^ 63 }
    {
        Heap {
            cells: Slab::new(alloc),
            shares: 1 << 63,
            alloc,
        }
    }

    /// One more value like this one. Takes no memory.
    pub fn share(&mut self, v: &Value) -> Value
        requires { 0 < self.old.shares }
        ensures same { result ≡ v.now }
        ensures contents { (w : One) → content_at self.new w ≡ content_at self.old w }
        ensures moves { Belongs self.old v.now → Moves self.old self.new no_references (references_of result) }
        ensures shares { self.old.shares ≤ self.new.shares + 1 }
    {
        let Some(place) = v.place() else {
            return v.twin();
        };
        raise(&mut self.cells, place);
        self.shares -= 1;
        Value::cell(place)
    }

    /// One more value like the item at a place of an array, `None` exactly where there is none.
    /// Takes no memory.
    pub fn share_item(&mut self, v: &Value, at: usize) -> Option<Value>
        requires { 0 < self.old.shares }
        ensures same { result ≡ item_in (content_at self.old v.now) at }
        ensures contents { (w : One) → content_at self.new w ≡ content_at self.old w }
        ensures moves { IfSome result (λ item. Moves self.old self.new no_references (references_of item)) }
        ensures unchanged { IfNone result (self.new ≡ self.old) }
        ensures shares { self.old.shares ≤ self.new.shares + 1 }
    {
        let item = match self.get(v, at) {
            None => return None,
            Some(item) => item.twin(),
        };
        Some(self.share(&item))
    }

    /// One more value like that of an associative array at a key, `None` exactly where there is
    /// none. Takes no memory.
    pub fn share_key(&mut self, v: &Value, key: &[u8]) -> Option<Value>
        requires { 0 < self.old.shares }
        ensures same { result ≡ value_in (content_at self.old v.now) (folded key.now) }
        ensures contents { (w : One) → content_at self.new w ≡ content_at self.old w }
        ensures moves { IfSome result (λ item. Moves self.old self.new no_references (references_of item)) }
        ensures unchanged { IfNone result (self.new ≡ self.old) }
        ensures shares { self.old.shares ≤ self.new.shares + 1 }
    {
        let item = match self.get_key(v, key) {
            None => return None,
            Some(item) => item.twin(),
        };
        Some(self.share(&item))
    }

    /// Takes the value back. Takes no memory.
    pub fn release(&mut self, v: Value)
        ensures moves { Moves self.old self.new (references_of v) no_references }
        ensures plain { (plain : p.Plain) → v ≡ Direct plain → self.new ≡ self.old }
        ensures shares { self.new.shares ≡ self.old.shares }
    {
        let Some(place) = v.place() else { return };
        lower(&mut self.cells, place);
    }

    /// A new cell with one reference.
    fn add(&mut self, content: Content) -> Result<Value, NoMemory>
        requires { InOrder (content_of content) }
        ensures fresh { IfOk result (λ v. Fresh self.old self.new v (content_of content)) }
        ensures unchanged { OnErr result (self.new ≡ self.old) }
        ensures shares { self.new.shares ≡ self.old.shares }
    {
        let Ok(place) = self.cells.insert(Cell { count: 1, content }) else {
            return Err(NoMemory);
        };
        Ok(Value::cell(place))
    }

    /// A new text.
    pub fn make_text(&mut self, text: Text) -> Result<Value, NoMemory>
        ensures made { IfOk result (λ v. MakesText self.old self.new v text) }
        ensures fresh { IfOk result (λ v. Fresh self.old self.new v (c.Text text)) }
        ensures unchanged { OnErr result (self.new ≡ self.old) }
        ensures shares { self.new.shares ≡ self.old.shares }
    {
        self.add(Content::Text(text))
    }

    /// A new array without items.
    pub fn make_array(&mut self) -> Result<Value, NoMemory>
        ensures made { IfOk result (λ v. MakesObject self.old self.new v (ArrayObject [])) }
        ensures fresh { IfOk result (λ v. Fresh self.old self.new v (c.Array [])) }
        ensures unchanged { OnErr result (self.new ≡ self.old) }
        ensures shares { self.new.shares ≡ self.old.shares }
    {
        let items = Vec::new(self.alloc);
        self.add(Content::Array(items))
    }

    /// A new associative array without keys.
    pub fn make_pairs(&mut self) -> Result<Value, NoMemory>
        ensures made { IfOk result (λ v. MakesObject self.old self.new v (MapObject [])) }
        ensures fresh { IfOk result (λ v. Fresh self.old self.new v (c.Pairs [])) }
        ensures unchanged { OnErr result (self.new ≡ self.old) }
        ensures shares { self.new.shares ≡ self.old.shares }
    {
        let entries = Vec::new(self.alloc);
        self.add(Content::Pairs(entries))
    }

    /// A new message.
    pub fn make_message(&mut self, m: Message) -> Result<Value, NoMemory>
        ensures made { IfOk result (λ v. MakesObject self.old self.new v (MessageObject m)) }
        ensures fresh { IfOk result (λ v. Fresh self.old self.new v (c.Message m)) }
        ensures unchanged { OnErr result (self.new ≡ self.old) }
        ensures shares { self.new.shares ≡ self.old.shares }
    {
        self.add(Content::Message(m))
    }

    /// What the value's cell holds.
    pub(crate) fn content(&self, v: &Value) -> Option<&Content>
        ensures { option_map content_of (option_copied result) ≡ content_at self.now v.now }
    {
        match v.place() {
            None => None,
            Some(place) => match self.cells.get(place) {
                None => None,
                Some(cell) => Some(&cell.content),
            },
        }
    }
}
