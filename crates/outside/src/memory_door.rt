//! A door in memory.
ghost use Rattle.std.specs.Prelude.{◌≡◌, ◌+◌, ◌-◌, ◌^◌, ◌<◌, ◌≤◌, ◌↔◌, ◌++◌, ◌∷◌, min, Contains, IsErr, Some, None, [], length, take, IfOk, OnOk, OnErr};
ghost use Rattle.std.specs.Option.{ForSome};
ghost use Rattle.std.specs.Io.{ReadsAtMost, WritesAtMost};
ghost use Rattle.std.proofs.Props.{props};
ghost use Rattle.outside.specs.Causes.{CountsFailure};
ghost use Rattle.outside.specs.Door.{connections_of, IsKept, IsListening, IsOpen, has_waiting, AcceptMoves, AcceptTakes, GivesNext, ReadMarks, WriteMarks, left_of, giving, sending, noting_failure, listening_again};
ghost use Rattle.outside.specs.Told.{told_connections};
ghost use Rattle.outside.specs.declared.door.DoorState.TheVariants.{Closed, Listening};

use crate::calls::Calls;
use crate::door::{Connection, Door, DoorState};
use crate::faults::Failed;
use crate::memory_streams::read_from;
use chan_values::{Bytes, NoMemory};
use std::alloc::Global;

/// A door whose connections are given beforehand.
#[derive(Debug, Drop)]
pub struct MemoryDoor {
    /// What the door is doing.
    pub state: DoorState,
    /// The connections in the order in which they come.
    pub connections: Vec<Connection>,
    /// How many of them were accepted: the first ones, so many. Where a connection is open, it is the last of these.
    pub accepted: usize,
    /// At most this many bytes are given or taken by a call, at least 1.
    pub most: usize,
    /// The calls of `listen` and `accept`.
    pub calls: Calls,
    /// The calls of `read` and `write`. A `write` that finds no memory fails too.
    pub connection_calls: Calls,
    /// Where what is written takes its memory.
    pub alloc: Global,
    ghost kept: { IsKept state (connections_of connections.items accepted) } by { Prim.hlevel props },
    ghost some: { 0 < most },
}

impl MemoryDoor {
    /// A closed door at which no connection comes.
    pub fn new(alloc: Global, calls: Calls, connection_calls: Calls) -> MemoryDoor
        ensures state { result.state ≡ Closed }
        ensures connections { result.connections.items ≡ [] }
        ensures calls { result.calls ≡ calls }
        ensures others { result.connection_calls ≡ connection_calls }
    {
        MemoryDoor {
            state: DoorState::Closed,
            connections: Vec::new(alloc),
            accepted: 0,
            most: usize::MAX,
            calls,
            connection_calls,
            alloc,
        }
    }

    /// Adds a connection that comes after those that are there, with all bytes that its other side sends. After an `Err` nothing
    /// has changed.
    pub fn push(&mut self, incoming: Bytes) -> Result<(), NoMemory>
        ensures ok { OnOk result (self.new.connections.items ≡ self.old.connections.items ++ record { incoming = incoming; outgoing = []; given = 0; failed_after = None } ∷ []) }
        ensures err { OnErr result (self.new.connections.items ≡ self.old.connections.items) }
        ensures state { self.new.state ≡ self.old.state }
        ensures accepted { self.new.accepted ≡ self.old.accepted }
        ensures most { self.new.most ≡ self.old.most }
        ensures calls { (self.new.calls ≡ self.old.calls) × (self.new.connection_calls ≡ self.old.connection_calls) }
    {
        let connection = Connection {
            incoming,
            outgoing: Bytes::new(self.alloc),
            given: 0,
            failed_after: None,
        };
        match self.connections.push(connection) {
            Ok(()) => Ok(()),
            Err(_) => Err(NoMemory),
        }
    }
}

impl Connection {
    // Gives the next bytes, at most so many.
    #[tactic(auto, using(crate::proofs::Parts::read_next, crate::proofs::Parts::read_nothing))]
    fn give(&mut self, most: usize, into: &mut [u8]) -> usize
        requires in_range { self.old.given ≤ length self.old.incoming }
        requires some { 0 < most }
        requires room { 0 < length into.old }
        ensures given { self.new ≡ giving result self.old }
        ensures in_range { self.new.given ≤ length self.new.incoming }
        ensures bound { result ≤ length into.new }
        ensures bytes { take result into.new ≡ take result (left_of self.old) }
        ensures end { (result ≡ 0) ↔ (left_of self.old ≡ []) }
    {
        let count = read_from(self.incoming.as_slice(), self.given, most, into);
        self.given += count;
        count
    }

    // Takes bytes for the other side. After an `Err` none was taken, and the failure is kept.
    fn take(&mut self, bytes: &[u8]) -> Result<(), NoMemory>
        ensures ok { OnOk result (self.new ≡ sending bytes.now self.old) }
        ensures err { OnErr result (self.new ≡ noting_failure self.old) }
    {
        if self.outgoing.push_slice(bytes).is_err() {
            self.note_failure();
            return Err(NoMemory);
        }
        Ok(())
    }

    // Keeps how many bytes had been given, where this is the first failure.
    fn note_failure(&mut self)
        ensures { self.new ≡ noting_failure self.old }
    {
        self.failed_after = self.failed_after.or(Some(self.given));
    }
}

impl Door for MemoryDoor {
    ghost state = { λ d. d.state };

    ghost connections = { λ d. Some (connections_of d.connections.items d.accepted) };

    ghost faults = { λ d. d.calls.faults };

    ghost connection_faults = { λ d. d.connection_calls.faults };

    ghost kept = { λ d told is. told_connections d.state (connections_of d.connections.items d.accepted) told d.kept is };

    fn listen(&mut self, port: u16) -> Result<(), Failed>
        requires { self.old.state ≡ Closed }
        ensures ok { OnOk result (self.new.state ≡ Listening port) }
        ensures err { OnErr result (self.new.state ≡ Closed) }
        ensures connections { Some (connections_of self.new.connections.items self.new.accepted) ≡ Some (connections_of self.old.connections.items self.old.accepted) }
        ensures cause { CountsFailure self.old.calls.faults self.new.calls.faults result }
        ensures others { self.new.connection_calls ≡ self.old.connection_calls }
        ensures fails { IsErr result ↔ Contains self.old.calls.failing.items self.old.calls.made }
        ensures made { self.new.calls.made ≡ min (self.old.calls.made + 1) (2 ^ 64 - 1) }
        ensures failing { self.new.calls.failing ≡ self.old.calls.failing }
    {
        self.calls.begin()?;
        self.state = DoorState::Listening(port);
        Ok(())
    }

    fn accept(&mut self) -> Result<bool, Failed>
        requires { IsListening self.old.state }
        ensures state { AcceptMoves result self.old.state self.new.state }
        ensures told { IfOk result (λ answer. ForSome (Some (connections_of self.old.connections.items self.old.accepted)) (λ c. answer ≡ has_waiting c)) }
        ensures connections { AcceptTakes result (Some (connections_of self.old.connections.items self.old.accepted)) (Some (connections_of self.new.connections.items self.new.accepted)) }
        ensures cause { CountsFailure self.old.calls.faults self.new.calls.faults result }
        ensures others { self.new.connection_calls ≡ self.old.connection_calls }
        ensures fails { IsErr result ↔ Contains self.old.calls.failing.items self.old.calls.made }
        ensures made { self.new.calls.made ≡ min (self.old.calls.made + 1) (2 ^ 64 - 1) }
        ensures failing { self.new.calls.failing ≡ self.old.calls.failing }
    {
        self.calls.begin()?;
        match self.state {
            DoorState::Listening(port) if self.accepted < self.connections.len() => {
                self.accepted += 1;
                self.state = DoorState::Open(port);
                Ok(true)
            }
            _ => Ok(false),
        }
    }

    fn read(&mut self, into: &mut [u8]) -> Result<usize, Failed>
        requires open { IsOpen self.old.state }
        requires room { 0 < length into.old }
        ensures bound { ReadsAtMost result into.new }
        ensures state { self.new.state ≡ self.old.state }
        ensures bytes { IfOk result (λ count. ForSome (Some (connections_of self.old.connections.items self.old.accepted)) (GivesNext count into.new)) }
        ensures connections { ReadMarks result (Some (connections_of self.old.connections.items self.old.accepted)) (Some (connections_of self.new.connections.items self.new.accepted)) }
        ensures cause { CountsFailure self.old.connection_calls.faults self.new.connection_calls.faults result }
        ensures others { self.new.calls ≡ self.old.calls }
        ensures fails { IsErr result ↔ Contains self.old.connection_calls.failing.items self.old.connection_calls.made }
        ensures made { self.new.connection_calls.made ≡ min (self.old.connection_calls.made + 1) (2 ^ 64 - 1) }
        ensures failing { self.new.connection_calls.failing ≡ self.old.connection_calls.failing }
    {
        let at = self.accepted - 1;
        match self.connection_calls.begin() {
            Ok(()) => Ok(self.connections[at].give(self.most, into)),
            Err(failed) => {
                self.connections[at].note_failure();
                Err(failed)
            }
        }
    }

    fn write(&mut self, bytes: &[u8]) -> Result<usize, Failed>
        requires open { IsOpen self.old.state }
        requires some { 0 < length bytes.now }
        ensures bound { WritesAtMost result bytes.now }
        ensures some { IfOk result (λ count. 0 < count) }
        ensures state { self.new.state ≡ self.old.state }
        ensures connections { WriteMarks result bytes.now (Some (connections_of self.old.connections.items self.old.accepted)) (Some (connections_of self.new.connections.items self.new.accepted)) }
        ensures cause { CountsFailure self.old.connection_calls.faults self.new.connection_calls.faults result }
        ensures others { self.new.calls ≡ self.old.calls }
        ensures fails { Contains self.old.connection_calls.failing.items self.old.connection_calls.made → IsErr result }
        ensures made { self.new.connection_calls.made ≡ min (self.old.connection_calls.made + 1) (2 ^ 64 - 1) }
        ensures failing { self.new.connection_calls.failing ≡ self.old.connection_calls.failing }
    {
        let at = self.accepted - 1;
        if let Err(failed) = self.connection_calls.begin() {
            self.connections[at].note_failure();
            return Err(failed);
        }
        let count = bytes.len().min(self.most);
        match self.connections[at].take(&bytes[..count]) {
            Ok(()) => Ok(count),
            Err(_) => Err(self.connection_calls.fail()),
        }
    }

    fn close(&mut self)
        requires { IsOpen self.old.state }
        ensures state { self.new.state ≡ listening_again self.old.state }
        ensures connections { Some (connections_of self.new.connections.items self.new.accepted) ≡ Some (connections_of self.old.connections.items self.old.accepted) }
        ensures calls { self.new.calls ≡ self.old.calls }
        ensures others { self.new.connection_calls ≡ self.old.connection_calls }
    {
        if let DoorState::Open(port) = self.state {
            self.state = DoorState::Listening(port);
        }
    }
}
