//! An actor: its homes, and its calls in progress.
ghost use Rattle.std.specs.Prelude.{◌≡◌, ◌<◌, ◌^◌, length, IfSome, IfOk, OnOk, OnErr, slice_get, option_map};
ghost use Rattle.chan_values.specs.Tree.{pairs_of};
ghost use Rattle.machine_meaning.specs.Image.{Image};
ghost use Rattle.actor_meaning.specs.declared.phase.Phase.TheVariants.{Waits};
ghost use Rattle.actor_meaning.specs.Promises.{Resumes, Ends};
ghost use Rattle.brs_machine.specs.Actors.{begun, AddsHome, with_scope, idle, at_work, wanting, place_of, home_of};
ghost use Rattle.brs_machine.specs.Receiving.{Receives};

use crate::HomeId;
use crate::first::first_m;
use crate::home::{Home, push_home, release_homes};
use actor_meaning::{Answer, Phase};
use brs_copy::copy_in;
use brs_heap::{Heap, Value};
use call_release::release_calls;
use chan_values::{NoMemory, PairList, Place, copy_message};
use frame_stack::FrameStack;
use return_instructions::land;
use std::alloc::Global;
use std::marker::Model;

/// An actor. Its calls in progress stand in stacks that grow and are kept.
#[derive(Debug, Drop)]
pub struct Actor {
    number: u32,
    homes: Vec<Home>,
    phase: Phase,
    frames: FrameStack,
}

impl Model for Actor {
    ghost use Rattle.actor_meaning.specs.View.{Actor as Shown};
    ghost use Rattle.brs_machine.specs.Actors.{HasCalls};

    ghost Value = { Shown };

    ghost view = { λ a. record { number = a.number; homes = a.homes.items; phase = a.phase; frames = a.frames } };

    ghost invariant = { λ a. HasCalls a.phase a.frames };
}

impl Actor {
    /// An actor of this number, which has no homes and is idle. Number 0 can't wait, and only number 1 has the screen. Takes no memory.
    pub fn new(alloc: Global, number: u32) -> Actor
        ensures { result ≡ begun number }
    {
        Actor {
            number,
            homes: Vec::new(alloc),
            phase: Phase::Waits,
            frames: FrameStack::new(alloc),
        }
    }

    /// Adds a home, whose `m` is a new associative array of these pairs, and whose names read in the source scope, and answers its number.
    /// After `NoMemory` the actor is as before, and nothing more is said of the heap.
    pub fn add_home(
        &mut self,
        alloc: Global,
        heap: &mut Heap,
        first: &PairList,
    ) -> Result<HomeId, NoMemory>
        requires { length self.old.homes < 2 ^ 32 }
        ensures number { IfOk result (λ home. home.0 ≡ length self.old.homes) }
        ensures added { OnOk result (AddsHome heap.old self.old heap.new self.new (pairs_of first.now)) }
        ensures unchanged { OnErr result (self.new ≡ self.old) }
        ensures shares { heap.new.shares ≡ heap.old.shares }
    {
        let number = self.homes.len();
        let m = first_m(alloc, heap, first)?;
        push_home(&mut self.homes, Home { scope: 0, m })?;
        Ok(HomeId(number as u32))
    }

    /// Lets the names in the calls of a home read in another scope. Takes no memory.
    pub fn set_scope(&mut self, home: HomeId, scope: u32)
        requires { home.0 < length self.old.homes }
        ensures { self.new ≡ with_scope home.0 scope self.old }
    {
        self.homes[home.0 as usize].scope = scope;
    }

    /// The `m` of a home. Takes no memory.
    pub fn home_m(&self, home: HomeId) -> &Value
        requires { home.0 < length self.now.homes }
        ensures { IfSome (slice_get self.now.homes home.0) (λ h. result.now ≡ h.m) }
    {
        &self.homes[home.0 as usize].m
    }

    /// Whether no call is in progress. Takes no memory.
    pub fn is_idle(&self) -> bool
        ensures { result ≡ idle self.now.phase self.now.frames }
    {
        match self.phase {
            Phase::Waits => self.frames.call_count() == 0,
            _ => false,
        }
    }

    /// Whether the innermost call has a step: it is at work, or about to raise an error. Takes no memory.
    pub fn is_at_work(&self) -> bool
        ensures { result ≡ at_work self.now.phase }
    {
        match self.phase {
            Phase::Waits => false,
            _ => true,
        }
    }

    /// The place of the open want, `None` exactly where there is none. Takes no memory.
    pub fn want_place(&self) -> Option<Place>
        ensures { result ≡ place_of (wanting self.now.phase self.now.frames) }
    {
        match self.phase {
            Phase::Waits if self.frames.call_count() > 0 => {
                let head = self.frames.head();
                Some(Place {
                    path: head.path,
                    line: head.line,
                })
            }
            _ => None,
        }
    }

    /// The home of the call that has the open want, `None` exactly where there is none. Takes no memory.
    pub fn want_home(&self) -> Option<HomeId>
        ensures { option_map (λ h. h.0) result ≡ home_of (wanting self.now.phase self.now.frames) }
    {
        match self.phase {
            Phase::Waits if self.frames.call_count() > 0 => Some(HomeId(self.frames.head().home)),
            _ => None,
        }
    }

    /// Hands the answer to the open want: a value is laid down anew, and a message is a new object; an error is raised in the next step of
    /// the call that asked. After `NoMemory` the actor is as before, and nothing more is said of the heap.
    pub fn resume(
        &mut self,
        alloc: Global,
        heap: &mut Heap,
        answer: &Answer,
    ) -> Result<(), NoMemory>
        requires waits { self.old.phase ≡ Waits }
        requires there { 0 < length self.old.frames }
        ensures resumes { OnOk result ((image : Image) → Resumes image heap.old self.old heap.new self.new answer.now) }
        ensures unchanged { OnErr result (self.new ≡ self.old) }
        ensures shares { heap.new.shares ≡ heap.old.shares }
    {
        match answer {
            Answer::Value(value) => {
                let v = copy_in(alloc, heap, value)?;
                self.receive(heap, v)
            }
            Answer::Message(message) => {
                let message = copy_message(alloc, message)?;
                let v = heap.make_message(message)?;
                self.receive(heap, v)
            }
            Answer::Failed(error) => {
                self.phase = Phase::Fails(*error);
                Ok(())
            }
        }
    }

    /// Gives the innermost call the value that it waits for, and it goes on.
    fn receive(&mut self, heap: &mut Heap, v: Value) -> Result<(), NoMemory>
        requires { 0 < length self.old.frames }
        ensures receives { OnOk result (Receives heap.old self.old heap.new self.new v) }
        ensures unchanged { OnErr result (self.new ≡ self.old) }
        ensures shares { heap.new.shares ≡ heap.old.shares }
    {
        land(heap, &mut self.frames, v)?;
        self.phase = Phase::Works;
        Ok(())
    }

    /// Ends the actor: takes back all that its calls and its homes hold. Takes no memory.
    pub fn end(&mut self, heap: &mut Heap)
        ensures ends { (image : Image) → Ends image heap.old self.old heap.new }
        ensures gone { self.new ≡ begun self.old.number }
        ensures shares { heap.new.shares ≡ heap.old.shares }
    {
        self.phase = Phase::Waits;
        release_calls(heap, &mut self.frames);
        release_homes(heap, &mut self.homes);
    }
}
