//! Lists of targets.
ghost use Rattle.std.specs.Prelude.{◌≡◌, ◌↔◌, [], ◌∷◌, ◌++◌, length, slice_get, IsTrue, OnOk, OnErr};
ghost use Rattle.std.specs.Option.{option_copied};

use crate::target::Target;
use chan_values::NoMemory;
use std::alloc::Global;
use std::marker::Model;

/// The targets of a change, in order of registration.
#[derive(Debug, Drop)]
pub struct ObserverList {
    items: Vec<Target>,
}

impl Model for ObserverList {
    ghost use Rattle.std.specs.Prelude.{List};
    ghost use Rattle.field_observers.specs.declared.target.Target.{Target as One};

    ghost Value = { List One };

    ghost view = { λ l. l.items.items };
}

impl ObserverList {
    /// No targets. Takes no memory.
    pub fn new(alloc: Global) -> ObserverList
        ensures { result ≡ [] }
    {
        ObserverList {
            items: Vec::new(alloc),
        }
    }

    /// Adds a target at the end. After an `Err` nothing has changed.
    pub fn push(&mut self, item: Target) -> Result<(), NoMemory>
        ensures ok { OnOk result (self.new ≡ self.old ++ item ∷ []) }
        ensures err { OnErr result (self.new ≡ self.old) }
    {
        match self.items.push(item) {
            Ok(()) => Ok(()),
            Err(_) => Err(NoMemory),
        }
    }

    /// How many targets there are. Takes no memory.
    pub fn len(&self) -> usize
        ensures { result ≡ length self.now }
    {
        self.items.len()
    }

    /// Whether there is no target. Takes no memory.
    pub fn is_empty(&self) -> bool
        ensures { IsTrue result ↔ (self.now ≡ []) }
    {
        self.items.is_empty()
    }

    /// The target at a place, counted from 0, `None` exactly past the end. Takes no memory.
    pub fn get(&self, at: usize) -> Option<&Target>
        ensures { option_copied result ≡ slice_get self.now at }
    {
        self.items.get(at)
    }
}
