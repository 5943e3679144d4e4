//! Sets of names.
ghost use Rattle.std.specs.Prelude.{◌≡◌, ◌||◌, ℕ, List, false, not, IfOk, OnOk, OnErr};
ghost use Rattle.std.specs.Str.{bytes_eq};
ghost use Rattle.xml_pieces.specs.Names.{is_in};

use chan_values::{NoMemory, Text};
use std::alloc::Global;
use std::collections::HashSet;
use std::hash::{BuildHasherDefault, FoldHasher};

/// Names, each once. An addition compares a name with those of its hash alone, however many there are. The hash has no seed, so that the
/// same file always takes the same time; names chosen to have one hash make additions slow.
#[derive(Drop)]
pub struct NameSet {
    names: HashSet<String, BuildHasherDefault<FoldHasher>>,
}

impl NameSet {
    /// No names. Takes no memory.
    pub fn new(alloc: Global) -> NameSet
        ensures { (name : List ℕ) → is_in result name ≡ false }
    {
        NameSet {
            names: HashSet::new(alloc),
        }
    }

    /// Adds a name, and answers whether it wasn't there. After an `Err` nothing has changed.
    pub fn add(&mut self, name: Text) -> Result<bool, NoMemory>
        ensures answer { IfOk result (λ added. added ≡ not (is_in self.old name)) }
        ensures after { OnOk result ((other : List ℕ) → is_in self.new other ≡ (bytes_eq name other || is_in self.old other)) }
        ensures err { OnErr result ((other : List ℕ) → is_in self.new other ≡ is_in self.old other) }
    {
        match self.names.insert(name.into_string()) {
            Ok(added) => Ok(added),
            Err(_) => Err(NoMemory),
        }
    }
}
