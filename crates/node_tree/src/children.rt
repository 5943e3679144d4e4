//! The children of a node.
ghost use Rattle.std.specs.Prelude.{◌≡◌, ◌==◌, [], ◌∷◌, ◌++◌, position, OnOk, OnErr, IsTrue};
ghost use Rattle.node_tree.specs.Family.{has, without, place_in, with_child};

use chan_values::NoMemory;
use std::alloc::Global;
use std::marker::Model;

/// Where a node takes its place among the children of another.
#[derive(Clone, Copy, Debug, PartialEq, Eq)]
pub enum Place {
    /// At this place, counted from 0, or last where there are fewer.
    At(usize),
    Last,
}

/// The place in a list of so many, in which each place behind the end is the end.
fn place_in(place: Place, count: usize) -> usize
    ensures { result ≡ place_in place count }
{
    match place {
        Place::At(at) => at.min(count),
        Place::Last => count,
    }
}

/// The numbers of the children, in order.
#[derive(Drop)]
pub struct ChildList {
    items: Vec<u32>,
}

impl Model for ChildList {
    ghost use Rattle.std.specs.Prelude.{ℕ, List};
    ghost use Rattle.std.specs.Coded.{coded_ℕ, coded_list};

    ghost Value = { List ℕ };

    ghost coded = { coded_list coded_ℕ };

    ghost view = { λ c. c.items.items };
}

impl ChildList {
    pub fn new(alloc: Global) -> ChildList
        ensures { result ≡ [] }
    {
        ChildList {
            items: Vec::new(alloc),
        }
    }

    pub fn as_slice(&self) -> &[u32]
        ensures { result.now ≡ self.now }
    {
        self.items.as_slice()
    }

    pub fn has(&self, child: u32) -> bool
        ensures { result ≡ has child self.now }
    {
        self.items.iter().any(|k| *k == child)
    }

    fn place_of(&self, child: u32) -> Option<usize>
        ensures { result ≡ position (λ k. k == child) self.now }
    {
        self.items.iter().position(|k| *k == child)
    }

    pub fn remove(&mut self, child: u32)
        ensures { self.new ≡ without child self.old }
    {
        if let Some(at) = self.place_of(child) {
            self.items.remove(at);
        }
    }

    /// Adds a number at the end. After an `Err` nothing has changed.
    pub fn push(&mut self, child: u32) -> Result<(), NoMemory>
        ensures ok { OnOk result (self.new ≡ self.old ++ child ∷ []) }
        ensures err { OnErr result (self.new ≡ self.old) }
    {
        match self.items.push(child) {
            Ok(()) => Ok(()),
            Err(_) => Err(NoMemory),
        }
    }

    /// Puts a number at a place. After an `Err` nothing has changed.
    pub fn insert(&mut self, place: Place, child: u32) -> Result<(), NoMemory>
        ensures ok { OnOk result (self.new ≡ with_child place child self.old) }
        ensures err { OnErr result (self.new ≡ self.old) }
    {
        let at = place_in(place, self.items.len());
        match self.items.insert(at, child) {
            Ok(()) => Ok(()),
            Err(_) => Err(NoMemory),
        }
    }

    /// Takes a number that is there out of the list, and puts it at a place. Takes no memory.
    pub fn put_again(&mut self, place: Place, child: u32)
        requires { IsTrue (has child self.old) }
        ensures { self.new ≡ with_child place child (without child self.old) }
    {
        let Some(at) = self.place_of(child) else {
            unreachable!()
        };
        self.items.remove(at);
        let to = place_in(place, self.items.len());
        let Ok(()) = self.items.insert(to, child) else {
            unreachable!()
        };
    }
}
