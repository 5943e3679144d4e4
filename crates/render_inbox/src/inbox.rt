//! The inbox and its calls.
ghost use Rattle.std.specs.Prelude.{◌≡◌, ◌↔◌, ℕ, ◌+◌, ◌<◌, ◌^◌, [], ◌∷◌, ◌++◌, IsTrue, OnOk, OnErr, IfOk, MatchOption};
ghost use Rattle.std.specs.List.{position};
ghost use Rattle.render_inbox.specs.Inbox.{is_post_of, posts_of, without_first, first_number, CountsPost, SameCounts};

use crate::counts::{count_of, discard, put};
use crate::entry::Entry;
use chan_values::{Access, Key, NoMemory};
use std::alloc::Global;
use std::collections::VecDeque;
use std::marker::Model;

/// The inbox of the render actor, first in, first out. Contracts see its entries, and how many posts of each actor and how
/// many keys have come.
///
/// Source: SceneGraph, "SceneGraph threads".
#[derive(Debug, Drop)]
pub struct Inbox {
    entries: VecDeque<Entry>,
    posts: Vec<u64>,
    keys: u64,
    calls: u64,
}

impl Model for Inbox {
    ghost use Rattle.std.specs.Coded.{codes};
    ghost use Rattle.chan_values.specs.Codes.{tree_code, pair_code};
    ghost use Rattle.render_inbox.specs.Inbox.{InboxState, AreCounted};

    ghost Value = { InboxState };

    ghost coded = { Prim.hlevel (codes, tree_code, pair_code) };

    ghost view = { λ i. record { entries = i.entries.items; posts = i.posts.items; keys = i.keys; calls = i.calls } };

    ghost invariant = { λ i. AreCounted (record { entries = i.entries.items; posts = i.posts.items; keys = i.keys; calls = i.calls }) };
}

fn first_post(entries: &VecDeque<Entry>, actor: u32) -> Option<usize>
    ensures { result ≡ position (is_post_of actor) entries.now.items }
{
    entries.iter().position(|e| e.is_post_of(actor))
}

impl Inbox {
    /// An inbox without entries, to which nothing has come. Takes no memory.
    pub fn new(alloc: Global) -> Inbox
        ensures entries { result.entries ≡ [] }
        ensures posts { (actor : ℕ) → posts_of result actor ≡ 0 }
        ensures keys { result.keys ≡ 0 }
        ensures calls { result.calls ≡ 0 }
    {
        Inbox {
            entries: VecDeque::new(alloc),
            posts: Vec::new(alloc),
            keys: 0,
            calls: 0,
        }
    }

    /// Puts an access of an actor behind all entries, and answers the number of the actor's post, counted from 1. After an
    /// `Err` nothing has changed. The memory taken grows with the greatest number of an actor.
    pub fn post(&mut self, actor: u32, access: Access) -> Result<u64, NoMemory>
        requires { self.old.calls < 2 ^ 63 }
        ensures entries { IfOk result (λ number. self.new.entries ≡ self.old.entries ++ Entry.Access actor number access ∷ []) }
        ensures counts { IfOk result (λ number. CountsPost self.old self.new actor number) }
        ensures kept { OnErr result (self.new.entries ≡ self.old.entries) }
        ensures same { OnErr result (SameCounts self.old self.new) }
    {
        match count_of(&mut self.posts, actor) {
            Ok(count) => {
                put(&mut self.entries, Entry::Access(actor, count + 1, access))?;
                self.posts[actor as usize] = count + 1;
                self.calls += 1;
                Ok(count + 1)
            }
            Err(fault) => {
                discard(access);
                Err(fault)
            }
        }
    }

    /// Puts the end of an actor's task behind all entries, and answers the number of the actor's post, counted from 1;
    /// `done` says that the task's function returned. After an `Err` nothing has changed.
    pub fn post_end(&mut self, actor: u32, done: bool) -> Result<u64, NoMemory>
        requires { self.old.calls < 2 ^ 63 }
        ensures entries { IfOk result (λ number. self.new.entries ≡ self.old.entries ++ Entry.TaskEnd actor number done ∷ []) }
        ensures counts { IfOk result (λ number. CountsPost self.old self.new actor number) }
        ensures kept { OnErr result (self.new.entries ≡ self.old.entries) }
        ensures same { OnErr result (SameCounts self.old self.new) }
    {
        let count = count_of(&mut self.posts, actor)?;
        put(&mut self.entries, Entry::TaskEnd(actor, count + 1, done))?;
        self.posts[actor as usize] = count + 1;
        self.calls += 1;
        Ok(count + 1)
    }

    /// Puts a key behind all entries, and answers its number, counted from 1. After an `Err` nothing has changed.
    pub fn post_key(&mut self, key: Key, press: bool) -> Result<u64, NoMemory>
        requires { self.old.calls < 2 ^ 63 }
        ensures entries { IfOk result (λ number. self.new.entries ≡ self.old.entries ++ Entry.Key number key press ∷ []) }
        ensures number { IfOk result (λ number. number ≡ self.old.keys + 1) }
        ensures keys { OnOk result (self.new.keys ≡ self.old.keys + 1) }
        ensures calls { OnOk result (self.new.calls ≡ self.old.calls + 1) }
        ensures posts { (a : ℕ) → posts_of self.new a ≡ posts_of self.old a }
        ensures kept { OnErr result (self.new.entries ≡ self.old.entries) }
        ensures same { OnErr result (SameCounts self.old self.new) }
    {
        let number = self.keys + 1;
        put(&mut self.entries, Entry::Key(number, key, press))?;
        self.keys = number;
        self.calls += 1;
        Ok(number)
    }

    /// Takes the first entry, `None` exactly where there is none. Takes no memory.
    pub fn begin(&mut self) -> Option<Entry>
        ensures first { MatchOption result ((self.old.entries ≡ []) × (self.new.entries ≡ [])) (λ e. self.old.entries ≡ e ∷ self.new.entries) }
        ensures counts { SameCounts self.old self.new }
    {
        self.entries.pop_front()
    }

    /// Takes out the first post of an actor and no other entry, and answers its number, `None` exactly where no post of
    /// that actor waits. The other entries keep their order. Takes no memory.
    pub fn drop_of(&mut self, actor: u32) -> Option<u64>
        ensures number { result ≡ first_number actor self.old.entries }
        ensures entries { self.new.entries ≡ without_first actor self.old.entries }
        ensures counts { SameCounts self.old self.new }
    {
        let at = first_post(&self.entries, actor)?;
        let entry = self.entries.remove(at)?;
        let number = entry.number();
        discard(entry);
        Some(number)
    }

    /// Whether there is no entry. Takes no memory.
    pub fn is_empty(&self) -> bool
        ensures { IsTrue result ↔ (self.now.entries ≡ []) }
    {
        self.entries.is_empty()
    }
}
