//! The arguments of a call that leaves its actor.
ghost use Rattle.std.specs.Prelude.{◌≡◌, ◌↔◌, [], ◌∷◌, ◌++◌, length, slice_get, map, IsTrue, OnOk, OnErr};
ghost use Rattle.std.specs.Option.{option_copied, option_map};
ghost use Rattle.chan_values.specs.View.{tree_of};

use crate::{NoMemory, Portable};
use std::alloc::Global;
use std::marker::Model;

/// A list of values, each of which keeps the bounds of a portable value by itself.
#[derive(Debug, Drop)]
pub struct ArgumentList {
    items: Vec<Portable>,
}

impl Model for ArgumentList {
    ghost use Rattle.std.specs.Prelude.{List, map};
    ghost use Rattle.std.specs.Coded.{coded_list};
    ghost use Rattle.chan_values.specs.Tree.{Tree};
    ghost use Rattle.chan_values.specs.Codes.{tree_code};
    ghost use Rattle.chan_values.specs.View.{tree_of};

    ghost Value = { List Tree };

    ghost coded = { coded_list tree_code };

    ghost view = { λ a. map tree_of a.items.items };
}

impl ArgumentList {
    /// No values. Takes no memory.
    pub fn new(alloc: Global) -> ArgumentList
        ensures { result ≡ [] }
    {
        ArgumentList {
            items: Vec::new(alloc),
        }
    }

    /// The values of a `Vec`. Takes no memory.
    pub fn from_vec(items: Vec<Portable>) -> ArgumentList
        ensures { result ≡ map tree_of items.items }
    {
        ArgumentList { items }
    }

    /// The values as a `Vec`. Takes no memory.
    pub fn into_vec(self) -> Vec<Portable>
        ensures { map tree_of result.items ≡ self }
    {
        let ArgumentList { items } = self;
        items
    }

    /// Adds a value at the end. After an `Err` nothing has changed.
    pub fn push(&mut self, item: Portable) -> Result<(), NoMemory>
        ensures ok { OnOk result (self.new ≡ self.old ++ tree_of item ∷ []) }
        ensures err { OnErr result (self.new ≡ self.old) }
    {
        match self.items.push(item) {
            Ok(()) => Ok(()),
            Err(_) => Err(NoMemory),
        }
    }

    /// How many values there are. Takes no memory.
    pub fn len(&self) -> usize
        ensures { result ≡ length self.now }
    {
        self.items.len()
    }

    /// Whether there is no value. Takes no memory.
    pub fn is_empty(&self) -> bool
        ensures { IsTrue result ↔ (self.now ≡ []) }
    {
        self.items.is_empty()
    }

    /// The value at a place, counted from 0, `None` exactly past the end. Takes no memory.
    pub fn get(&self, at: usize) -> Option<&Portable>
        ensures { option_map tree_of (option_copied result) ≡ slice_get self.now at }
    {
        self.items.get(at)
    }

    /// The values. Takes no memory.
    pub fn as_slice(&self) -> &[Portable]
        ensures { map tree_of result.now ≡ self.now }
    {
        self.items.as_slice()
    }
}
