//! Homes.
ghost use Rattle.std.specs.Prelude.{◌≡◌, [], ◌∷◌, ◌++◌, OnOk, OnErr};
ghost use Rattle.heap_meaning.specs.Heap.{Moves, no_references, references_of};
ghost use Rattle.actor_meaning.specs.View.{home_references};

use brs_heap::{Heap, Value};
use chan_values::NoMemory;
use std::marker::Model;

/// The number of a home of its actor, from 0.
#[derive(Clone, Copy, Debug, PartialEq, Eq)]
pub struct HomeId(pub u32);

/// What names read as in the calls of a node's component, and their `m`.
#[derive(Debug, Drop)]
pub struct Home {
    pub scope: u32,
    pub m: Value,
}

impl Model for Home {
    ghost use Rattle.actor_meaning.specs.View.{Home as Shown};

    ghost Value = { Shown };

    ghost view = { λ h. record { scope = h.scope; m = h.m } };
}

/// Adds a home behind the others. After an `Err` nothing has changed, and the home is gone.
pub fn push_home(homes: &mut Vec<Home>, home: Home) -> Result<(), NoMemory>
    ensures ok { OnOk result (homes.new.items ≡ homes.old.items ++ home ∷ []) }
    ensures err { OnErr result (homes.new.items ≡ homes.old.items) }
{
    match homes.push(home) {
        Ok(()) => Ok(()),
        Err(_) => Err(NoMemory),
    }
}

/// Takes back the `m` of a home. Takes no memory.
fn release_home(heap: &mut Heap, home: Home)
    ensures moves { Moves heap.old heap.new (references_of home.m) no_references }
    ensures shares { heap.new.shares ≡ heap.old.shares }
{
    let Home { scope: _, m } = home;
    heap.release(m);
}

/// Takes back the `m` of each home. Takes no memory.
pub fn release_homes(heap: &mut Heap, homes: &mut Vec<Home>)
    ensures moves { Moves heap.old heap.new (λ k. home_references k homes.old.items) no_references }
    ensures homes { homes.new.items ≡ [] }
    ensures shares { heap.new.shares ≡ heap.old.shares }
{
    while let Some(home) = homes.pop() {
        release_home(heap, home);
    }
}
