//! The tables of a function.
ghost use Rattle.std.specs.Prelude.{◌≡◌, [], ◌∷◌, ◌++◌, length, slice_get, Some, IfOk, OnOk};
ghost use Rattle.lowering_parts.specs.Names.{with_name};

use crate::slots::Slots;
use brs_code::Mark;
use chan_values::{NoMemory, Text, copy_text};
use sqlite_items::Items;
use std::alloc::Global;

/// What the instructions of a function name.
#[derive(Drop)]
pub struct Tables {
    pub slots: Slots,
    /// Texts, and the folded names of members and keys.
    pub texts: Items<Text>,
    /// The marks of each `print`, one after another.
    pub marks: Items<Mark>,
}

impl Tables {
    /// Tables without entries. Takes no memory.
    pub fn new(alloc: Global) -> Tables
        ensures slots { result.slots ≡ [] }
        ensures texts { result.texts ≡ [] }
        ensures marks { result.marks ≡ [] }
    {
        Tables {
            slots: Slots::new(alloc),
            texts: Items::new(alloc),
            marks: Items::new(alloc),
        }
    }

    /// The slot of a name.
    pub fn slot(&mut self, alloc: Global, name: &[u8]) -> Result<usize, NoMemory>
        ensures at { IfOk result (λ n. slice_get self.new.slots n ≡ Some name.now) }
        ensures others { OnOk result (self.new ≡ record self.old { slots = with_name self.old.slots name.now }) }
    {
        self.slots.slot(alloc, name)
    }

    /// Adds a text, and answers its index.
    pub fn text(&mut self, alloc: Global, text: &Text) -> Result<usize, NoMemory>
        ensures at { IfOk result (λ n. n ≡ length self.old.texts) }
        ensures added { OnOk result (self.new ≡ record self.old { texts = self.old.texts ++ text.now ∷ [] }) }
    {
        let index = self.texts.len();
        let Ok(()) = self.texts.push(copy_text(alloc, text)?) else {
            return Err(NoMemory);
        };
        Ok(index)
    }

    /// Adds texts, and answers the index of the first.
    pub fn words(&mut self, alloc: Global, words: &[Text]) -> Result<usize, NoMemory>
        ensures at { IfOk result (λ n. n ≡ length self.old.texts) }
        ensures added { OnOk result (self.new ≡ record self.old { texts = self.old.texts ++ words.now }) }
    {
        let index = self.texts.len();
        for word in words {
            self.text(alloc, word)?;
        }
        Ok(index)
    }

    /// Adds the marks of a `print`, and answers the index of the first.
    pub fn marks(&mut self, alloc: Global, marks: &[Mark]) -> Result<usize, NoMemory>
        ensures at { IfOk result (λ n. n ≡ length self.old.marks) }
        ensures added { OnOk result (self.new ≡ record self.old { marks = self.old.marks ++ marks.now }) }
    {
        let index = self.marks.len();
        let Ok(more) = Items::from_slice(alloc, marks) else {
            return Err(NoMemory);
        };
        let Ok(()) = self.marks.append(more) else {
            return Err(NoMemory);
        };
        Ok(index)
    }
}
