//! Lists of nodes.
ghost use Rattle.std.specs.Prelude.{◌≡◌, ◌↔◌, [], ◌∷◌, ◌++◌, length, slice_get, IsTrue, OnOk, OnErr};
ghost use Rattle.std.specs.Option.{option_copied};

use chan_values::NoMemory;
use std::alloc::Global;
use std::marker::Model;

/// The numbers of nodes, the focused one first and each ancestor behind its child.
#[derive(Debug, Drop)]
pub struct ChainList {
    items: Vec<u32>,
}

impl Model for ChainList {
    ghost use Rattle.std.specs.Prelude.{ℕ, List};

    ghost Value = { List ℕ };

    ghost view = { λ l. l.items.items };
}

impl ChainList {
    /// No nodes. Takes no memory.
    pub fn new(alloc: Global) -> ChainList
        ensures { result ≡ [] }
    {
        ChainList {
            items: Vec::new(alloc),
        }
    }

    /// Adds a node at the end. After an `Err` nothing has changed.
    pub fn push(&mut self, item: u32) -> Result<(), NoMemory>
        ensures ok { OnOk result (self.new ≡ self.old ++ item ∷ []) }
        ensures err { OnErr result (self.new ≡ self.old) }
    {
        match self.items.push(item) {
            Ok(()) => Ok(()),
            Err(_) => Err(NoMemory),
        }
    }

    /// How many nodes there are. Takes no memory.
    pub fn len(&self) -> usize
        ensures { result ≡ length self.now }
    {
        self.items.len()
    }

    /// Whether there is no node. Takes no memory.
    pub fn is_empty(&self) -> bool
        ensures { IsTrue result ↔ (self.now ≡ []) }
    {
        self.items.is_empty()
    }

    /// The node at a place, counted from 0, `None` exactly past the end. Takes no memory.
    pub fn get(&self, at: usize) -> Option<&u32>
        ensures { option_copied result ≡ slice_get self.now at }
    {
        self.items.get(at)
    }
}
