//! What a `for each` goes over.
ghost use Rattle.std.specs.Prelude.{◌≡◌, [], ◌∷◌, OnOk, OnErr, MatchOption};

use brs_heap::Value;
use chan_values::{NoMemory, Text};
use std::alloc::Global;
use std::marker::Model;

/// Keys that a `for each` has still to go over, the next one first.
#[derive(Debug, Drop)]
pub struct KeyList {
    last_first: Vec<Text>,
}

impl Model for KeyList {
    ghost use Rattle.std.specs.Prelude.{ℕ, List, reverse};

    ghost Value = { List (List ℕ) };

    ghost view = { λ k. reverse k.last_first.items };
}

impl KeyList {
    /// No keys. Takes no memory.
    pub fn new(alloc: Global) -> KeyList
        ensures { result ≡ [] }
    {
        KeyList {
            last_first: Vec::new(alloc),
        }
    }

    /// Puts a key before the others. After an `Err` nothing has changed.
    pub fn push(&mut self, key: Text) -> Result<(), NoMemory>
        ensures ok { OnOk result (self.new ≡ key ∷ self.old) }
        ensures err { OnErr result (self.new ≡ self.old) }
    {
        match self.last_first.push(key) {
            Ok(()) => Ok(()),
            Err(_) => Err(NoMemory),
        }
    }

    /// Takes the next key out, `None` exactly where none is left. Takes no memory.
    pub fn pop(&mut self) -> Option<Text>
        ensures { MatchOption result ((self.old ≡ []) × (self.new ≡ [])) (λ key. self.old ≡ key ∷ self.new) }
    {
        self.last_first.pop()
    }
}

/// What a `for each` has still to go over.
///
/// Source: BrightScript Language Reference, "FOR EACH / END FOR".
#[derive(Debug, Drop)]
pub enum Each {
    /// The items of an array, from this place on, counted from 0.
    Items(Value, usize),
    /// The keys of an associative array that are left of those that it had at the begin.
    Keys(KeyList),
}
