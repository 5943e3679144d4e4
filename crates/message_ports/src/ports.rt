//! The ports of a run.
ghost use Rattle.std.specs.Prelude.{◌≡◌, ◌≢◌, ◌↔◌, ℕ, ◌+◌, ◌≤◌, [], ◌∷◌, ◌++◌, length, map, drop, IsTrue, OnOk, OnErr, IfOk, MatchOption};
ghost use Rattle.message_ports.specs.Messages.{messages_of, with_messages, IsPort};

use chan_values::{Message, NoMemory};
use std::alloc::Global;
use std::collections::VecDeque;
use std::marker::Model;

/// The most ports that a run can have.
pub const MAX_PORTS: u32 = 65_536;

/// Why no port was made.
#[derive(Clone, Copy, Debug, PartialEq, Eq)]
pub enum PortFault {
    /// There are `MAX_PORTS` ports already.
    TooManyPorts,
    /// Memory ran out.
    NoMemory,
}

/// The message ports of a run, numbered from 1 in the order of making, which contracts see as the list of their messages.
/// Ports belong to no actor, and none is taken away.
///
/// Source: BrightScript Language Reference, "roMessagePort".
#[derive(Debug, Drop)]
pub struct Ports {
    alloc: Global,
    ports: Vec<VecDeque<Message>>,
}

impl Model for Ports {
    ghost use Rattle.std.specs.Prelude.{◌≤◌, List, map, length};
    ghost use Rattle.std.specs.Coded.{codes};
    ghost use Rattle.chan_values.specs.Codes.{tree_code, pair_code};
    ghost use Rattle.chan_values.specs.declared.message.Message.{Message as One};

    ghost Value = { List (List One) };

    ghost coded = { Prim.hlevel (codes, tree_code, pair_code) };

    ghost view = { λ p. map (λ queue. queue.items) p.ports.items };

    ghost invariant = { λ p. length p.ports.items ≤ 65536 };
}

impl Ports {
    /// No ports. Takes no memory.
    pub fn new(alloc: Global) -> Ports
        ensures { result ≡ [] }
    {
        Ports {
            alloc,
            ports: Vec::new(alloc),
        }
    }

    /// Makes an empty port and answers its number. `TooManyPorts` comes exactly where `MAX_PORTS` are there. After an `Err`
    /// nothing has changed.
    pub fn make(&mut self) -> Result<u32, PortFault>
        ensures ok { OnOk result (self.new ≡ self.old ++ [] ∷ []) }
        ensures number { IfOk result (λ port. port ≡ length self.new) }
        ensures room { OnOk result (length self.new ≤ 65536) }
        ensures err { OnErr result (self.new ≡ self.old) }
        ensures full { result ≡ Err PortFault.TooManyPorts ↔ (length self.old ≡ 65536) }
    {
        let count = self.count();
        if count == MAX_PORTS {
            return Err(PortFault::TooManyPorts);
        }
        match self.ports.push(VecDeque::new(self.alloc)) {
            Ok(()) => Ok(count + 1),
            Err(_) => Err(PortFault::NoMemory),
        }
    }

    /// How many ports there are, at most `MAX_PORTS`. Takes no memory.
    pub fn count(&self) -> u32
        ensures is { result ≡ length self.now }
        ensures most { result ≤ 65536 }
    {
        self.ports.len() as u32
    }

    /// Puts a message behind all others of its port. After an `Err` nothing has changed.
    pub fn put(&mut self, port: u32, m: Message) -> Result<(), NoMemory>
        requires { IsPort self.old port }
        ensures ok { OnOk result (self.new ≡ with_messages self.old port (messages_of self.old port ++ m ∷ [])) }
        ensures err { OnErr result (self.new ≡ self.old) }
    {
        match self.ports[port as usize - 1].push_back(m) {
            Ok(()) => Ok(()),
            Err(_) => Err(NoMemory),
        }
    }

    /// Takes the first message out of a port, `None` exactly where the port is empty. Takes no memory.
    pub fn take(&mut self, port: u32) -> Option<Message>
        requires { IsPort self.old port }
        ensures first { MatchOption result (messages_of self.old port ≡ [])
            (λ m. messages_of self.old port ≡ m ∷ drop 1 (messages_of self.old port)) }
        ensures rest { self.new ≡ with_messages self.old port (drop 1 (messages_of self.old port)) }
    {
        self.ports[port as usize - 1].pop_front()
    }

    /// Whether a message waits in a port. Takes no memory.
    pub fn has_message(&self, port: u32) -> bool
        requires { IsPort self.now port }
        ensures { IsTrue result ↔ (messages_of self.now port ≢ []) }
    {
        !self.ports[port as usize - 1].is_empty()
    }
}
