//! The calls in progress of an actor.
ghost use Rattle.std.specs.Prelude.{◌≡◌, ◌↔◌, ◌<◌, ◌≤◌, [], ◌∷◌, length, reverse, take, replicate, ◌++◌, IsTrue, IfSome, OnOk, OnErr, option_copied};
ghost use Rattle.std.specs.Prelude.{vec_len, vec_capacity};
ghost use Rattle.frame_stack.specs.Operand.{Holds, values, each_of, operand_of};
ghost use Rattle.frame_stack.specs.Frame.{slot_value, with_head, with_m, with_operand, without_operands, with_slot, with_last_slot, innermost, operands_of, slots_of, operands_below, calls_below, changed, changed_below, entered};
ghost use Rattle.frame_stack.specs.Cutting.{headers_of};

use crate::header::Header;
use crate::operands::Operands;
use crate::{CallHead, Each, Operand};
use brs_heap::Value;
use chan_values::NoMemory;
use std::alloc::Global;
use std::marker::Model;

/// The most calls in progress that one actor has.
pub const MAX_CALLS: usize = 256;

/// The calls in progress of an actor, the innermost first. Their operands and slots lie in stacks that grow and are kept, so that a call
/// takes memory only where no earlier one went as deep.
#[derive(Debug, Drop)]
pub struct FrameStack {
    top: Option<Header>,
    below: Vec<Header>,
    operands: Operands,
    slots: Vec<Option<Value>>,
}

impl Model for FrameStack {
    ghost use Rattle.std.specs.Prelude.{List, length, reverse};
    ghost use Rattle.frame_stack.specs.Frame.{Frame};
    ghost use Rattle.frame_stack.specs.Cutting.{frames_of, headers_of, IsCut};

    ghost Value = { List Frame };

    ghost view = { λ s. frames_of (headers_of s.top (reverse s.below.items)) s.operands s.slots.items };

    ghost invariant = { λ s. IsCut s.top (reverse s.below.items) (length s.operands) (length s.slots.items) };
}

/// Adds slots that are unset. After an `Err` nothing has changed.
fn add_unset(slots: &mut Vec<Option<Value>>, count: usize) -> Result<(), NoMemory>
    ensures ok { OnOk result (slots.new.items ≡ slots.old.items ++ replicate count None) }
    ensures err { OnErr result (slots.new.items ≡ slots.old.items) }
{
    if slots.reserve(count).is_err() {
        return Err(NoMemory);
    }
    for _i in 0..count {
        slots.push_reserved(None);
    }
    Ok(())
}

/// Puts the call that was the innermost one, if there was one, on those below it.
fn put_below(below: &mut Vec<Header>, caller: Option<Header>)
    requires room { vec_len below.old < vec_capacity below.old }
    requires whole { caller ≡ None → reverse below.old.items ≡ [] }
    ensures { reverse below.new.items ≡ headers_of caller (reverse below.old.items) }
{
    match caller {
        Some(header) => below.push_reserved(header),
        None => {}
    }
}

impl FrameStack {
    /// No calls. Takes no memory.
    pub fn new(alloc: Global) -> FrameStack
        ensures { result ≡ [] }
    {
        FrameStack {
            top: None,
            below: Vec::new(alloc),
            operands: Operands::new(alloc),
            slots: Vec::new(alloc),
        }
    }

    /// How many calls are in progress. Takes no memory.
    pub fn call_count(&self) -> usize
        ensures { result ≡ length self.now }
    {
        match &self.top {
            None => 0,
            Some(_) => self.below.len() + 1,
        }
    }

    /// Whether an actor has as many calls in progress as it may have, or more. Takes no memory.
    pub fn is_full(&self) -> bool
        ensures { IsTrue result ↔ (MAX_CALLS ≤ length self.now) }
    {
        self.call_count() >= MAX_CALLS
    }

    /// The plain part of the innermost call. Takes no memory.
    pub fn head(&self) -> CallHead
        requires { 0 < length self.now }
        ensures { IfSome (innermost self.now) (λ frame. result ≡ frame.head) }
    {
        match &self.top {
            Some(header) => header.head,
            None => unreachable!(),
        }
    }

    /// Gives the innermost call another plain part. Takes no memory.
    pub fn set_head(&mut self, head: CallHead)
        requires { 0 < length self.old }
        ensures { self.new ≡ changed (with_head head) self.old }
    {
        if let Some(header) = &mut self.top {
            header.head = head;
        }
    }

    /// The `m` of the innermost call. Takes no memory.
    pub fn m(&self) -> &Value
        requires { 0 < length self.now }
        ensures { IfSome (innermost self.now) (λ frame. result.now ≡ frame.m) }
    {
        match &self.top {
            Some(header) => &header.m,
            None => unreachable!(),
        }
    }

    /// Gives the innermost call another `m`, and hands back the earlier one. Takes no memory.
    pub fn replace_m(&mut self, m: Value) -> Value
        requires { 0 < length self.old }
        ensures value { IfSome (innermost self.old) (λ frame. result ≡ frame.m) }
        ensures set { self.new ≡ changed (with_m m) self.old }
    {
        match &mut self.top {
            Some(header) => std::mem::replace(&mut header.m, m),
            None => unreachable!(),
        }
    }

    /// How many operands the innermost call has, 0 without a call. Takes no memory.
    pub fn operand_count(&self) -> usize
        ensures { result ≡ length (operands_of self.now) }
    {
        match &self.top {
            None => 0,
            Some(header) => self.operands.len() - header.operands,
        }
    }

    /// Puts a value on the operands of the innermost call. After an `Err` nothing has changed, and the value is gone.
    pub fn push(&mut self, v: Value) -> Result<(), NoMemory>
        requires { 0 < length self.old }
        ensures ok { OnOk result (self.new ≡ changed (with_operand (Holds v)) self.old) }
        ensures err { OnErr result (self.new ≡ self.old) }
    {
        self.operands.push(v)
    }

    /// Puts what a `for each` goes over on the operands of the innermost call. After an `Err` nothing has changed, and what it goes over is
    /// gone.
    pub fn push_each(&mut self, each: Each) -> Result<(), NoMemory>
        requires { 0 < length self.old }
        ensures ok { OnOk result (self.new ≡ changed (with_operand (each_of each)) self.old) }
        ensures err { OnErr result (self.new ≡ self.old) }
    {
        self.operands.push_each(each)
    }

    /// Takes the last operand of the innermost call out. Takes no memory.
    pub fn pop(&mut self) -> Operand
        requires { 0 < length (operands_of self.old) }
        ensures taken { operands_of self.old ≡ operand_of result ∷ operands_of self.new }
        ensures rest { self.new ≡ changed (without_operands 1) self.old }
    {
        self.operands.pop()
    }

    /// The values of the last operands of the innermost call, in the order in which they were pushed. Takes no memory.
    pub fn last(&self, n: usize) -> &[Value]
        requires { n ≤ length (operands_of self.now) }
        ensures { reverse result.now ≡ take n (values (operands_of self.now)) }
    {
        self.operands.last(n)
    }

    /// How many slots the innermost call has, 0 without a call. Takes no memory.
    pub fn slot_count(&self) -> usize
        ensures { result ≡ length (slots_of self.now) }
    {
        match &self.top {
            None => 0,
            Some(header) => self.slots.len() - header.slots,
        }
    }

    /// The value in a slot of the innermost call, `None` exactly where it is unset. Takes no memory.
    pub fn slot(&self, n: usize) -> Option<&Value>
        requires { n < length (slots_of self.now) }
        ensures { option_copied result ≡ slot_value (slots_of self.now) n }
    {
        match &self.top {
            None => None,
            Some(header) => match &self.slots[header.slots + n] {
                None => None,
                Some(v) => Some(v),
            },
        }
    }

    /// Sets a slot of the innermost call, and hands back the value that it had. Takes no memory.
    pub fn set_slot(&mut self, n: usize, v: Value) -> Option<Value>
        requires { n < length (slots_of self.old) }
        ensures value { result ≡ slot_value (slots_of self.old) n }
        ensures set { self.new ≡ changed (with_slot n v) self.old }
    {
        match &self.top {
            None => unreachable!(),
            Some(header) => {
                let at = header.slots + n;
                std::mem::replace(&mut self.slots[at], Some(v))
            }
        }
    }

    /// Takes the last slot of the innermost call away, and hands back the value that it had. Takes no memory.
    pub fn pop_slot(&mut self) -> Option<Value>
        requires { 0 < length (slots_of self.old) }
        ensures { self.old ≡ changed (with_last_slot result) self.new }
    {
        match self.slots.pop() {
            Some(slot) => slot,
            None => unreachable!(),
        }
    }

    /// Begins a call with so many slots, which are unset. The last operands of the innermost call, its arguments, become its operands. After
    /// an `Err` nothing has changed, and `m` is gone.
    pub fn enter(
        &mut self,
        head: CallHead,
        m: Value,
        slots: usize,
        arguments: usize,
    ) -> Result<(), NoMemory>
        requires { arguments ≤ length (operands_of self.old) }
        ensures ok { OnOk result (self.new ≡ entered head m slots arguments self.old) }
        ensures err { OnErr result (self.new ≡ self.old) }
    {
        if self.below.reserve(1).is_err() {
            return Err(NoMemory);
        }
        let first_slot = self.slots.len();
        add_unset(&mut self.slots, slots)?;
        let header = Header {
            head,
            m,
            operands: self.operands.len() - arguments,
            slots: first_slot,
        };
        let caller = self.top.replace(header);
        put_below(&mut self.below, caller);
        Ok(())
    }

    /// How many operands the call below the innermost one has, 0 where there is none. Takes no memory.
    pub fn operand_count_below(&self) -> usize
        ensures { result ≡ length (operands_below self.now) }
    {
        match (&self.top, self.below.as_slice().last()) {
            (Some(header), Some(caller)) => header.operands - caller.operands,
            _ => 0,
        }
    }

    /// Takes the last operand of the call below the innermost one out, where the innermost one has no operands. Takes no memory.
    pub fn pop_below(&mut self) -> Operand
        requires bare { length (operands_of self.old) ≡ 0 }
        requires there { 0 < length (operands_below self.old) }
        ensures taken { operands_below self.old ≡ operand_of result ∷ operands_below self.new }
        ensures rest { self.new ≡ changed_below (without_operands 1) self.old }
    {
        match &mut self.top {
            Some(header) => {
                header.operands -= 1;
                self.operands.pop()
            }
            None => unreachable!(),
        }
    }

    /// Ends the innermost call, which has no operands and no slots any longer, and hands back its `m`. Takes no memory.
    pub fn leave(&mut self) -> Value
        requires there { 0 < length self.old }
        requires operands { length (operands_of self.old) ≡ 0 }
        requires slots { length (slots_of self.old) ≡ 0 }
        ensures value { IfSome (innermost self.old) (λ frame. result ≡ frame.m) }
        ensures below { self.new ≡ calls_below self.old }
    {
        match std::mem::replace(&mut self.top, self.below.pop()) {
            Some(
                Header {
                    head: _,
                    m,
                    operands: _,
                    slots: _,
                },
            ) => m,
            None => unreachable!(),
        }
    }
}
