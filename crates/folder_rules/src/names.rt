//! Tables of names.
ghost use Rattle.std.specs.Prelude.{◌≡◌, ℕ, List, None, Some, if◌then◌else◌, OnOk, OnErr};
ghost use Rattle.std.specs.Str.{bytes_eq};
ghost use Rattle.folder_rules.specs.Names.{number_in, either};

use chan_values::{NoMemory, Text};
use std::alloc::Global;
use std::collections::BTreeMap;

/// Names, each with a number. Takes a number of comparisons that grows with the logarithm of how many there are.
#[derive(Drop)]
pub struct NameTable {
    numbers: BTreeMap<String, usize>,
}

impl NameTable {
    /// No names. Takes no memory.
    pub fn new(alloc: Global) -> NameTable
        ensures { (name : List ℕ) → number_in result name ≡ None }
    {
        NameTable {
            numbers: BTreeMap::new(alloc),
        }
    }

    /// The number of a name, `None` exactly where the name isn't there. Takes no memory.
    pub fn get(&self, name: &str) -> Option<usize>
        ensures { result ≡ number_in self.now name.now }
    {
        self.numbers.get(name).copied()
    }

    /// Gives a name that isn't there this number. A name that is there keeps its own. After an `Err` nothing has changed.
    pub fn add(&mut self, name: Text, number: usize) -> Result<(), NoMemory>
        ensures ok { OnOk result ((other : List ℕ) → number_in self.new other ≡ either (number_in self.old other) (if bytes_eq name other then Some number else None)) }
        ensures err { OnErr result ((other : List ℕ) → number_in self.new other ≡ number_in self.old other) }
    {
        if self.get(name.as_str()).is_some() {
            return Ok(());
        }
        self.put(name, number)
    }

    /// Gives a name that isn't there this number.
    fn put(&mut self, name: Text, number: usize) -> Result<(), NoMemory>
        ensures ok { OnOk result ((other : List ℕ) → number_in self.new other ≡ (if bytes_eq name other then Some number else number_in self.old other)) }
        ensures err { OnErr result ((other : List ℕ) → number_in self.new other ≡ number_in self.old other) }
    {
        match self.numbers.insert(name.into_string(), number) {
            Ok(_) => Ok(()),
            Err(_) => Err(NoMemory),
        }
    }
}
