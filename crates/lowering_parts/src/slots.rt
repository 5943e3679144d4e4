//! Names in the order in which they came.
ghost use Rattle.std.specs.Prelude.{◌≡◌, [], slice_get, IfOk, OnOk, OnErr};
ghost use Rattle.lowering_parts.specs.Names.{with_name, AreDistinct};

use chan_values::NoMemory;
use indexmap::IndexSet;
use sqlite_items::Items;
use std::alloc::Global;
use std::marker::Model;

/// The names of a function's variables. The slot of a name is its place among them, from 0.
#[derive(Drop)]
pub struct Slots {
    names: IndexSet<Vec<u8>>,
}

impl Model for Slots {
    ghost use Rattle.std.specs.Prelude.{ℕ, List, map};

    ghost Value = { List (List ℕ) };

    ghost view = { λ s. map (λ name. name.items) s.names.keys };
}

impl Slots {
    /// No names. Takes no memory.
    pub fn new(alloc: Global) -> Slots
        ensures { result ≡ [] }
    {
        Slots {
            names: IndexSet::new(alloc),
        }
    }

    /// The slot of a name, which is the next one where the name is new. Takes constant time on average. After an `Err` the names are as they were.
    pub fn slot(&mut self, alloc: Global, name: &[u8]) -> Result<usize, NoMemory>
        ensures at { IfOk result (λ slot. slice_get self.new slot ≡ Some name.now) }
        ensures names { OnOk result (self.new ≡ with_name self.old name.now) }
        ensures unchanged { OnErr result (self.new ≡ self.old) }
    {
        let Ok(copy) = Vec::from_slice(alloc, name) else {
            return Err(NoMemory);
        };
        let Ok((slot, _)) = self.names.insert_full(copy) else {
            return Err(NoMemory);
        };
        Ok(slot)
    }

    /// The name of each slot.
    pub fn names(&self, alloc: Global) -> Result<Items<Items<u8>>, NoMemory>
        ensures names { IfOk result (λ names. names ≡ self.now) }
        ensures distinct { IfOk result AreDistinct }
    {
        let keys = self.names.as_slice();
        let mut names = Items::new(alloc);
        for name in keys {
            let Ok(copy) = Items::from_slice(alloc, name.as_slice()) else {
                return Err(NoMemory);
            };
            let Ok(()) = names.push(copy) else {
                return Err(NoMemory);
            };
        }
        Ok(names)
    }
}
