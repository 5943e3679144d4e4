//! Names in order.
ghost use Rattle.std.specs.Prelude.{◌≡◌, ◌≤◌, [], slice_get, length, drop, filter, None, IfOk, IfErr};
ghost use Rattle.std.specs.Map.{keys_of};
ghost use Rattle.std.specs.Option.{option_copied};
ghost use Rattle.chan_values.specs.Folded.{folded};
ghost use Rattle.ordered_names.specs.Values.{behind, is_before, value_of, IsAscending, IsAt};

use crate::order::compare;
use chan_values::Text;
use std::alloc::Global;
use std::marker::Model;

/// Names in ascending byte order, each once and with a value. Contracts see the list of names and values.
#[derive(Drop)]
pub struct OrderedNames<V: Drop> {
    entries: Vec<(Text, V)>,
}

impl<V: Drop> Model for OrderedNames<V> {
    ghost use Rattle.std.specs.Prelude.{ℕ, List};
    ghost use Rattle.ordered_names.specs.Values.{IsAscending};

    ghost Value = { List (List ℕ × V) };

    ghost view = { λ n. n.entries.items };

    ghost invariant = { λ n. IsAscending n.entries.items };
}

impl<V: Drop> OrderedNames<V> {
    /// No names. Takes no memory.
    pub fn empty(alloc: Global) -> OrderedNames<V>
        ensures { result ≡ [] }
    {
        OrderedNames::new(Vec::new(alloc))
    }

    /// Names that stand in order.
    pub(crate) fn new(entries: Vec<(Text, V)>) -> OrderedNames<V>
        requires { IsAscending entries.items }
        ensures { result ≡ entries.items }
    {
        OrderedNames { entries }
    }

    /// How many names there are.
    pub fn len(&self) -> usize
        ensures { result ≡ length self.now }
    {
        self.entries.len()
    }

    /// Where a name stands, in any case of its letters.
    fn search(&self, name: &[u8]) -> Result<usize, usize>
        ensures found { IfOk result (IsAt self.now (folded name.now)) }
        ensures absent { IfErr result (λ gap. value_of self.now (folded name.now) ≡ None) }
    {
        self.entries
            .binary_search_by(|entry| compare(entry.0.as_str().as_bytes(), name))
    }

    /// The value of a name, in any case of its ASCII letters; `None` exactly where the name isn't there. Takes a number of comparisons that grows
    /// with the logarithm of how many names there are, and no memory.
    pub fn get(&self, name: &[u8]) -> Option<&V>
        ensures { option_copied result ≡ value_of self.now (folded name.now) }
    {
        match self.search(name) {
            Ok(at) => Some(&self.entries[at].1),
            Err(_) => None,
        }
    }

    /// The name at a place, counted from 0; `None` exactly behind the last one. Takes no memory.
    pub fn name_at(&self, at: usize) -> Option<&Text>
        ensures name { option_copied result ≡ slice_get (keys_of self.now) at }
        ensures ascending { IsAscending self.now }
    {
        match self.entries.get(at) {
            Some(entry) => Some(&entry.0),
            None => None,
        }
    }

    /// How many names don't stand behind a name.
    fn count_up_to(&self, name: &str) -> usize
        ensures { drop result (keys_of self.now) ≡ filter (is_before name.now) (keys_of self.now) }
    {
        self.entries
            .partition_point(|entry| entry.0.as_str().cmp(name).is_le())
    }

    /// The first name behind another, which is compared byte by byte, or the first of all where no other is given; `None` exactly where there is
    /// none. Takes a number of comparisons that grows with the logarithm of how many names there are, and no memory.
    pub fn first_behind(&self, name: Option<&str>) -> Option<&Text>
        ensures name { option_copied result ≡ slice_get (behind (option_copied name.entry) (keys_of self.now)) 0 }
        ensures ascending { IsAscending self.now }
    {
        match name {
            Some(name) => self.name_at(self.count_up_to(name)),
            None => self.name_at(0),
        }
    }
}
