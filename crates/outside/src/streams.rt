//! Where bytes come from, and where they go.
ghost use Rattle.std.specs.Prelude.{◌≡◌, ℕ, ◌<◌, List, length, Option, IfOk};
ghost use Rattle.std.specs.Io.{ReadsAtMost, WritesAtMost};
ghost use Rattle.std.specs.Io.KnownBytes.{ReadConsumes, WriteAppends};
ghost use Rattle.outside.specs.Causes.{CountsFailure};

use crate::faults::Failed;

/// Where bytes come from, one after another up to an end.
pub trait Source {
    /// The bytes that are left, where they are told.
    ghost left: { Self → Option (List ℕ) };

    /// How often a call has failed, at most 2^64 - 1.
    ghost faults: { Self → ℕ };

    /// Fills the front of `into` with the next bytes, and answers their number. 0 bytes are the end, and come exactly there.
    /// After `Failed` no byte was taken.
    fn read(&mut self, into: &mut [u8]) -> Result<usize, Failed>
        requires { 0 < length into.old }
        ensures bound { ReadsAtMost result into.new }
        ensures bytes { ReadConsumes (left self.old) (left self.new) result into.new }
        ensures cause { CountsFailure (faults self.old) (faults self.new) result };
}

/// Where bytes go.
pub trait Sink {
    /// The bytes that were written so far, where they are told.
    ghost held: { Self → Option (List ℕ) };

    /// How often a call has failed, at most 2^64 - 1.
    ghost faults: { Self → ℕ };

    /// Takes some of the bytes from the front, at least one, and answers their number. After `Failed` none was taken.
    fn write(&mut self, bytes: &[u8]) -> Result<usize, Failed>
        requires { 0 < length bytes.now }
        ensures bound { WritesAtMost result bytes.now }
        ensures some { IfOk result (λ count. 0 < count) }
        ensures taken { WriteAppends (held self.old) (held self.new) result bytes.now }
        ensures cause { CountsFailure (faults self.old) (faults self.new) result };
}
