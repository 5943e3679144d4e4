//! Operands of calls.
ghost use Rattle.std.specs.Prelude.{◌≡◌, ◌<◌, ◌≤◌, [], ◌∷◌, length, reverse, take, OnOk, OnErr};
ghost use Rattle.frame_stack.specs.Operand.{Holds, values, each_of, operand_of};
ghost use Rattle.frame_stack.specs.Layout.{loop_at, loops_below};

use crate::Each;
use brs_heap::{Plain, Value};
use chan_values::NoMemory;
use std::alloc::Global;
use std::marker::Model;

/// An operand that was taken from its stack.
#[derive(Debug, Drop)]
pub enum Operand {
    Value(Value),
    Each(Each),
}

/// What a `for each` keeps at this place among the values.
#[derive(Debug, Drop)]
struct Loop {
    at: usize,
    each: Each,
}

/// Operands, of which the last is taken first. A `for each` has an operand that is no value: `invalid` stands for it where values are
/// asked for.
#[derive(Debug, Drop)]
pub struct Operands {
    values: Vec<Value>,
    loops: Vec<Loop>,
}

impl Model for Operands {
    ghost use Rattle.std.specs.Prelude.{List, reverse};
    ghost use Rattle.frame_stack.specs.Operand.{Operand as Shown};
    ghost use Rattle.frame_stack.specs.Layout.{seen, IsLaidOut};

    ghost Value = { List Shown };

    ghost view = { λ o. seen (reverse o.values.items) (reverse o.loops.items) };

    ghost invariant = { λ o. IsLaidOut (reverse o.values.items) (reverse o.loops.items) };
}

/// Takes out what the last loop goes over where it has this place, else nothing.
fn pop_loop(loops: &mut Vec<Loop>, at: usize) -> Option<Each>
    ensures each { result ≡ loop_at (reverse loops.old.items) at }
    ensures rest { reverse loops.new.items ≡ loops_below (reverse loops.old.items) at }
{
    let is_here = match loops.as_slice().last() {
        Some(last) => last.at == at,
        None => false,
    };
    if !is_here {
        return None;
    }
    match loops.pop() {
        Some(Loop { at: _, each }) => Some(each),
        None => unreachable!(),
    }
}

impl Operands {
    /// No operands. Takes no memory.
    pub fn new(alloc: Global) -> Operands
        ensures { result ≡ [] }
    {
        Operands {
            values: Vec::new(alloc),
            loops: Vec::new(alloc),
        }
    }

    /// How many operands there are. Takes no memory.
    pub fn len(&self) -> usize
        ensures { result ≡ length self.now }
    {
        self.values.len()
    }

    /// Puts a value on the others. After an `Err` nothing has changed, and the value is gone.
    pub fn push(&mut self, v: Value) -> Result<(), NoMemory>
        ensures ok { OnOk result (self.new ≡ Holds v ∷ self.old) }
        ensures err { OnErr result (self.new ≡ self.old) }
    {
        if self.values.reserve(1).is_err() {
            return Err(NoMemory);
        }
        self.values.push_reserved(v);
        Ok(())
    }

    /// Puts what a `for each` goes over on the others. After an `Err` nothing has changed, and what it goes over is gone.
    pub fn push_each(&mut self, each: Each) -> Result<(), NoMemory>
        ensures ok { OnOk result (self.new ≡ each_of each ∷ self.old) }
        ensures err { OnErr result (self.new ≡ self.old) }
    {
        let at = self.values.len();
        if self.loops.reserve(1).is_err() {
            return Err(NoMemory);
        }
        if self.values.push(Value::plain(Plain::Invalid)).is_err() {
            return Err(NoMemory);
        }
        self.loops.push_reserved(Loop { at, each });
        Ok(())
    }

    /// Takes the last operand out. Takes no memory.
    pub fn pop(&mut self) -> Operand
        requires { 0 < length self.old }
        ensures { self.old ≡ operand_of result ∷ self.new }
    {
        let Some(v) = self.values.pop() else {
            unreachable!()
        };
        let at = self.values.len();
        match pop_loop(&mut self.loops, at) {
            Some(each) => Operand::Each(each),
            None => Operand::Value(v),
        }
    }

    /// The values of the last operands, in the order in which they were pushed. Takes no memory.
    pub fn last(&self, n: usize) -> &[Value]
        requires { n ≤ length self.now }
        ensures { reverse result.now ≡ take n (values self.now) }
    {
        let from = self.values.len() - n;
        &self.values.as_slice()[from..]
    }
}
