//! Values of a heap.
ghost use Rattle.std.specs.Prelude.{◌≡◌};
ghost use Rattle.heap_meaning.specs.Values.{Direct, Cell as AtCell};
ghost use Rattle.heap_meaning.specs.Reading.{plain_of, place_of};

use heap_meaning::Plain;
use std::marker::Model;

/// A value of one heap: a plain value, or a reference to a cell. It is handed over by
/// `Heap::release` or by being stored. One that is dropped by itself leaves its cell's count as it
/// was.
#[derive(Debug, Drop)]
pub struct Value {
    kind: Kind,
}

/// A plain value, or the place of a cell.
#[derive(Debug, Drop)]
enum Kind {
    Plain(Plain),
    Cell(usize),
}

impl Model for Value {
    ghost use Rattle.heap_meaning.specs.Values.{Value as Shown};

    ghost Value = { Shown };

    ghost use Rattle.brs_heap.specs.Kind.{value_of};

    ghost view = { λ v. value_of v.kind };
}

impl Value {
    /// The plain value as a value. Takes no memory.
    pub fn plain(p: Plain) -> Value
        ensures { result ≡ Direct p }
    {
        Value {
            kind: Kind::Plain(p),
        }
    }

    /// A reference to the cell at this place. Counting it is the caller's.
    pub(crate) fn cell(place: usize) -> Value
        ensures { result ≡ AtCell place }
    {
        Value {
            kind: Kind::Cell(place),
        }
    }

    /// The plain value that it is.
    pub(crate) fn as_plain(&self) -> Option<Plain>
        ensures { result ≡ plain_of self.now }
    {
        match self.kind {
            Kind::Plain(p) => Some(p),
            Kind::Cell(_) => None,
        }
    }

    /// The place of its cell.
    pub(crate) fn place(&self) -> Option<usize>
        ensures { result ≡ place_of self.now }
    {
        match self.kind {
            Kind::Plain(_) => None,
            Kind::Cell(place) => Some(place),
        }
    }

    /// The same value once more, which isn't counted.
    pub(crate) fn twin(&self) -> Value
        ensures { result ≡ self.now }
    {
        match self.kind {
            Kind::Plain(p) => Value::plain(p),
            Kind::Cell(place) => Value::cell(place),
        }
    }
}
