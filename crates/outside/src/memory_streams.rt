//! Streams in memory.
ghost use Rattle.std.specs.Prelude.{◌≡◌, ◌+◌, ◌-◌, ◌^◌, ◌<◌, ◌≤◌, ◌↔◌, min, Contains, IsErr, Some, take, drop, length, IfOk, [], ◌++◌};
ghost use Rattle.std.specs.Io.{ReadsAtMost, WritesAtMost};
ghost use Rattle.std.specs.Io.KnownBytes.{ReadConsumes, WriteAppends};
ghost use Rattle.outside.specs.Causes.{CountsFailure};

use crate::calls::Calls;
use crate::faults::Failed;
use crate::streams::{Sink, Source};
use chan_values::Bytes;
use std::alloc::Global;

/// Copies as many of the bytes from a place on as there is room for, and at most so many.
#[tactic(auto, using(crate::proofs::Parts::read_front, crate::proofs::Parts::read_end))]
pub(crate) fn read_from(bytes: &[u8], from: usize, most: usize, into: &mut [u8]) -> usize
    requires { from ≤ length bytes.now }
    ensures in_range { from + result ≤ length bytes.now }
    ensures room { result ≤ length into.new }
    ensures front { drop from bytes.now ≡ take result into.new ++ drop (from + result) bytes.now }
    ensures end { result ≡ 0 → 0 < most → 0 < length into.new → drop (from + result) bytes.now ≡ [] }
{
    let count = (bytes.len() - from).min(into.len()).min(most);
    into[..count].copy_from_slice(&bytes[from..from + count]);
    count
}

/// Bytes to be read.
#[derive(Debug, Drop)]
pub struct MemorySource {
    /// All bytes.
    pub bytes: Bytes,
    /// How many of them were read.
    pub given: usize,
    /// The calls of `read`.
    pub calls: Calls,
    ghost in_range: { given ≤ length bytes },
}

impl MemorySource {
    /// Nothing was read yet.
    pub fn new(bytes: Bytes, calls: Calls) -> MemorySource
        ensures bytes { result.bytes ≡ bytes }
        ensures given { result.given ≡ 0 }
        ensures calls { result.calls ≡ calls }
    {
        MemorySource {
            bytes,
            given: 0,
            calls,
        }
    }
}

impl Source for MemorySource {
    ghost left = { λ s. Some (drop s.given s.bytes) };

    ghost faults = { λ s. s.calls.faults };

    fn read(&mut self, into: &mut [u8]) -> Result<usize, Failed>
        requires { 0 < length into.old }
        ensures bound { ReadsAtMost result into.new }
        ensures bytes { ReadConsumes (Some (drop self.old.given self.old.bytes)) (Some (drop self.new.given self.new.bytes)) result into.new }
        ensures cause { CountsFailure self.old.calls.faults self.new.calls.faults result }
        ensures fails { IsErr result ↔ Contains self.old.calls.failing.items self.old.calls.made }
        ensures made { self.new.calls.made ≡ min (self.old.calls.made + 1) (2 ^ 64 - 1) }
        ensures failing { self.new.calls.failing ≡ self.old.calls.failing }
        ensures all { self.new.bytes ≡ self.old.bytes }
    {
        self.calls.begin()?;
        let count = read_from(self.bytes.as_slice(), self.given, into.len(), into);
        self.given += count;
        Ok(count)
    }
}

/// Bytes that were written.
#[derive(Debug, Drop)]
pub struct MemorySink {
    /// The bytes, in the order in which they were written.
    pub bytes: Bytes,
    /// The calls of `write`. A call that finds no memory fails too.
    pub calls: Calls,
}

impl MemorySink {
    /// Nothing was written yet.
    pub fn new(alloc: Global, calls: Calls) -> MemorySink
        ensures { result ≡ record { bytes = []; calls = calls } }
    {
        MemorySink {
            bytes: Bytes::new(alloc),
            calls,
        }
    }
}

impl Sink for MemorySink {
    ghost held = { λ s. Some s.bytes };

    ghost faults = { λ s. s.calls.faults };

    fn write(&mut self, bytes: &[u8]) -> Result<usize, Failed>
        requires { 0 < length bytes.now }
        ensures bound { WritesAtMost result bytes.now }
        ensures some { IfOk result (λ count. 0 < count) }
        ensures taken { WriteAppends (Some self.old.bytes) (Some self.new.bytes) result bytes.now }
        ensures cause { CountsFailure self.old.calls.faults self.new.calls.faults result }
        ensures fails { Contains self.old.calls.failing.items self.old.calls.made → IsErr result }
        ensures made { self.new.calls.made ≡ min (self.old.calls.made + 1) (2 ^ 64 - 1) }
        ensures failing { self.new.calls.failing ≡ self.old.calls.failing }
    {
        self.calls.begin()?;
        match self.bytes.push_slice(bytes) {
            Ok(()) => Ok(bytes.len()),
            Err(_) => Err(self.calls.fail()),
        }
    }
}
