//! A door, at which connections come one after another.

use crate::faults::Failed;
use chan_values::Bytes;

/// What a door is doing. The number is the port.
#[derive(Clone, Copy, Debug, PartialEq, Eq)]
pub enum DoorState {
    /// No connection can come.
    Closed,
    /// Connections come, and none is open.
    Listening(u16),
    /// A connection is open, the one that was accepted last.
    Open(u16),
}

/// A connection. Whether it was accepted is told by its place: a door keeps how many were.
#[derive(Debug, Drop)]
pub struct Connection {
    /// All bytes that the other side sends.
    pub incoming: Bytes,
    /// The bytes that were written to the other side.
    pub outgoing: Bytes,
    /// How many of the incoming bytes were given to a reader.
    pub given: usize,
    /// How many bytes had been given before the first call on it that failed, `None` while no call has failed.
    pub failed_after: Option<usize>,
}

/// A door. Its failures at `listen` and `accept` are counted apart from those on a connection, at `read` and `write`.
pub trait Door {
    ghost use Rattle.std.specs.Prelude.{◌≡◌, ℕ, ◌<◌, Option, length, IfOk, OnOk, OnErr};
    ghost use Rattle.std.specs.Option.{ForSome};
    ghost use Rattle.std.specs.Io.{ReadsAtMost, WritesAtMost};
    ghost use Rattle.outside.specs.Causes.{CountsFailure};
    ghost use Rattle.outside.specs.declared.door.DoorState.{DoorState};
    ghost use Rattle.outside.specs.declared.door.DoorState.TheVariants.{Closed, Listening};
    ghost use Rattle.outside.specs.Door.{Connections, IsListening, IsOpen, IsKept, has_waiting, AcceptMoves, AcceptTakes, GivesNext, ReadMarks, WriteMarks, listening_again};

    /// What the door is doing, which is always told.
    ghost state: { Self → DoorState };

    /// The connections in the order in which they come, and how many of them were accepted, where they are told.
    ghost connections: { Self → Option Connections };

    /// How often `listen` or `accept` has failed, at most 2^64 - 1.
    ghost faults: { Self → ℕ };

    /// How often `read` or `write` has failed, at most 2^64 - 1.
    ghost connection_faults: { Self → ℕ };

    /// Listens on a port.
    fn listen(&mut self, port: u16) -> Result<(), Failed>
        requires { state self.old ≡ Closed }
        ensures ok { OnOk result (state self.new ≡ Listening port) }
        ensures err { OnErr result (state self.new ≡ Closed) }
        ensures connections { connections self.new ≡ connections self.old }
        ensures cause { CountsFailure (faults self.old) (faults self.new) result }
        ensures others { connection_faults self.new ≡ connection_faults self.old };

    /// Takes the first connection that was not accepted, and opens it. `false` says that no connection will come any more,
    /// and comes exactly where none is left.
    fn accept(&mut self) -> Result<bool, Failed>
        requires { IsListening (state self.old) }
        ensures state { AcceptMoves result (state self.old) (state self.new) }
        ensures told { IfOk result (λ answer. ForSome (connections self.old) (λ c. answer ≡ has_waiting c)) }
        ensures connections { AcceptTakes result (connections self.old) (connections self.new) }
        ensures cause { CountsFailure (faults self.old) (faults self.new) result }
        ensures others { connection_faults self.new ≡ connection_faults self.old };

    /// Fills the front of `into` with the next bytes of the open connection, and answers their number. 0 bytes are its end,
    /// and come exactly there. After `Failed` no byte was taken.
    fn read(&mut self, into: &mut [u8]) -> Result<usize, Failed>
        requires open { IsOpen (state self.old) }
        requires room { 0 < length into.old }
        ensures bound { ReadsAtMost result into.new }
        ensures state { state self.new ≡ state self.old }
        ensures bytes { IfOk result (λ count. ForSome (connections self.old) (GivesNext count into.new)) }
        ensures connections { ReadMarks result (connections self.old) (connections self.new) }
        ensures cause { CountsFailure (connection_faults self.old) (connection_faults self.new) result }
        ensures others { faults self.new ≡ faults self.old };

    /// Takes some of the bytes from the front, at least one, for the open connection, and answers their number. After
    /// `Failed` none was taken.
    fn write(&mut self, bytes: &[u8]) -> Result<usize, Failed>
        requires open { IsOpen (state self.old) }
        requires some { 0 < length bytes.now }
        ensures bound { WritesAtMost result bytes.now }
        ensures some { IfOk result (λ count. 0 < count) }
        ensures state { state self.new ≡ state self.old }
        ensures connections { WriteMarks result bytes.now (connections self.old) (connections self.new) }
        ensures cause { CountsFailure (connection_faults self.old) (connection_faults self.new) result }
        ensures others { faults self.new ≡ faults self.old };

    /// Closes the open connection. The door listens again on its port.
    fn close(&mut self)
        requires { IsOpen (state self.old) }
        ensures state { state self.new ≡ listening_again (state self.old) }
        ensures connections { connections self.new ≡ connections self.old }
        ensures faults { faults self.new ≡ faults self.old }
        ensures others { connection_faults self.new ≡ connection_faults self.old };

    /// At a closed door no connection was accepted, and at one with a connection open one was. A connection that was not
    /// accepted has no bytes given or written, and no call on it failed. No more bytes were given than there are.
    ghost kept: { (d : Self) → ForSome (connections d) (IsKept (state d)) };
}
