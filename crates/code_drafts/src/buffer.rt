//! Code that grows at its front.
ghost use Rattle.std.specs.Prelude.{◌≡◌, [], ◌∷◌, ◌++◌, length, reverse, OnOk};

use crate::draft::Draft;
use chan_values::NoMemory;
use sqlite_items::Items;
use std::alloc::Global;
use std::marker::Model;

/// Code that is made from its last instruction to its first, so that each jump forward knows how far it leads. Contracts see the list
/// from the first instruction on.
pub struct Buffer {
    items: Items<Draft>,
}

impl Model for Buffer {
    ghost use Rattle.std.specs.Prelude.{List, reverse};
    ghost use Rattle.code_drafts.specs.declared.draft.Draft.{Draft as One};
    ghost use Rattle.std.specs.Coded.{codes};
    ghost use Rattle.code_drafts.specs.contracts.draft.Draft as d;

    ghost Value = { List One };

    ghost coded = { Prim.hlevel (codes, d.the_row.coded) };

    ghost view = { λ b. reverse b.items };
}

// By hand, since a caller then calls it where a derived one would be written out at each way out.
impl Drop for Buffer {
    fn drop(self) {
        let Buffer { items: _items } = self;
    }
}

impl Buffer {
    /// No instruction. Takes no memory.
    pub fn new(alloc: Global) -> Buffer
        ensures { result ≡ [] }
    {
        Buffer {
            items: Items::new(alloc),
        }
    }

    pub fn len(&self) -> usize
        ensures { result ≡ length self.now }
    {
        self.items.len()
    }

    /// Puts an instruction in front.
    pub fn push(&mut self, draft: Draft) -> Result<(), NoMemory>
        ensures { OnOk result (self.new ≡ draft ∷ self.old) }
    {
        match self.items.push(draft) {
            Ok(()) => Ok(()),
            Err(_) => Err(NoMemory),
        }
    }

    /// Puts code in front.
    pub fn append(&mut self, front: Buffer) -> Result<(), NoMemory>
        ensures { OnOk result (self.new ≡ front ++ self.old) }
    {
        let Buffer { items } = front;
        match self.items.append(items) {
            Ok(()) => Ok(()),
            Err(_) => Err(NoMemory),
        }
    }

    /// The code from the last instruction to the first. Takes no memory.
    pub fn into_items(self) -> Items<Draft>
        ensures { result ≡ reverse self }
    {
        let Buffer { items } = self;
        items
    }
}
