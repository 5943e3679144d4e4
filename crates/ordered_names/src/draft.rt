//! Names that are still collected.
ghost use Rattle.std.specs.Prelude.{◌≡◌, ℕ, List, None, Some, if◌then◌else◌, IfOk, OnOk, OnErr};
ghost use Rattle.std.specs.Option.{option_or};
ghost use Rattle.std.specs.Str.{bytes_eq};
ghost use Rattle.chan_values.specs.Folded.{folded};
ghost use Rattle.ordered_names.specs.Values.{value_in, value_of};

use crate::OrderedNames;
use chan_values::{NoMemory, Text, fold_name};
use std::alloc::Global;
use std::collections::BTreeMap;

/// Names with values, in the making.
#[derive(Drop)]
pub struct NameDraft<V: Drop> {
    values: BTreeMap<String, V>,
}

impl<V: Drop> NameDraft<V> {
    /// No names. Takes no memory.
    pub fn new(alloc: Global) -> NameDraft<V>
        ensures { (name : List ℕ) → value_in result name ≡ None }
    {
        NameDraft {
            values: BTreeMap::new(alloc),
        }
    }

    /// Gives a name that isn't there this value. A name that is there keeps its own. After an `Err` nothing has changed.
    pub fn add(&mut self, name: Text, value: V) -> Result<(), NoMemory>
        ensures ok { OnOk result ((other : List ℕ) → value_in self.new other ≡ option_or (value_in self.old other) (if bytes_eq name other then Some value else None)) }
        ensures err { OnErr result ((other : List ℕ) → value_in self.new other ≡ value_in self.old other) }
    {
        if self.values.get(name.as_str()).is_some() {
            return Ok(());
        }
        self.put(name, value)
    }

    /// The same, of the name with each ASCII capital letter as the small one.
    pub fn add_folded(&mut self, alloc: Global, name: &Text, value: V) -> Result<(), NoMemory>
        ensures ok { OnOk result ((other : List ℕ) → value_in self.new other ≡ option_or (value_in self.old other) (if bytes_eq (folded name.now) other then Some value else None)) }
        ensures err { OnErr result ((other : List ℕ) → value_in self.new other ≡ value_in self.old other) }
    {
        let name = fold_name(alloc, name.as_str().as_bytes())?;
        self.add(name, value)
    }

    /// Gives a name that isn't there this value.
    fn put(&mut self, name: Text, value: V) -> Result<(), NoMemory>
        ensures ok { OnOk result ((other : List ℕ) → value_in self.new other ≡ (if bytes_eq name other then Some value else value_in self.old other)) }
        ensures err { OnErr result ((other : List ℕ) → value_in self.new other ≡ value_in self.old other) }
    {
        match self.values.insert(name.into_string(), value) {
            Ok(_) => Ok(()),
            Err(_) => Err(NoMemory),
        }
    }

    /// The names in order.
    pub fn into_ordered(self, alloc: Global) -> Result<OrderedNames<V>, NoMemory>
        ensures { IfOk result (λ names. (name : List ℕ) → value_of names name ≡ value_in self name) }
    {
        let mut entries = Vec::new(alloc);
        for (name, value) in self.values {
            match entries.push((Text::from_string(name), value)) {
                Ok(()) => {}
                Err(_) => return Err(NoMemory),
            }
        }
        Ok(OrderedNames::new(entries))
    }
}
