//! The streams of the host, with a count of their failures. What they hold or have left is what std tells of them: of standard
//! input and output nothing.
ghost use Rattle.std.specs.Prelude.{◌≡◌};
ghost use Rattle.outside.specs.Causes.{Rises};

use outside::faults::Failed;
use outside::streams::{Sink, Source};
use std::io::{Read, Write};

// Counts a failure.
fn failed(faults: &mut u64) -> Failed
    ensures { Rises faults.old faults.new }
{
    *faults = faults.saturating_add(1);
    Failed
}

/// A reader of std, such as standard input, as a source.
#[derive(Drop)]
pub struct StandardInput<R> {
    reader: R,
    faults: u64,
}

impl<R: Read> StandardInput<R> {
    /// No call has failed yet.
    pub fn new(reader: R) -> StandardInput<R>
        ensures { result ≡ record { reader = reader; faults = 0 } }
    {
        StandardInput { reader, faults: 0 }
    }
}

impl<R: Read> Source for StandardInput<R> {
    ghost left = { λ s. R.remaining s.reader };

    ghost faults = { λ s. s.faults };

    fn read(&mut self, into: &mut [u8]) -> Result<usize, Failed> {
        match self.reader.read(into) {
            Ok(count) => Ok(count),
            Err(_) => Err(failed(&mut self.faults)),
        }
    }
}

/// A writer of std, such as standard output, as a sink. A writer that takes no byte has failed.
#[derive(Drop)]
pub struct StandardOutput<W> {
    writer: W,
    faults: u64,
}

impl<W: Write> StandardOutput<W> {
    /// No call has failed yet.
    pub fn new(writer: W) -> StandardOutput<W>
        ensures { result ≡ record { writer = writer; faults = 0 } }
    {
        StandardOutput { writer, faults: 0 }
    }
}

impl<W: Write> Sink for StandardOutput<W> {
    ghost held = { λ s. W.contents s.writer };

    ghost faults = { λ s. s.faults };

    fn write(&mut self, bytes: &[u8]) -> Result<usize, Failed> {
        match self.writer.write(bytes) {
            Ok(count) if count > 0 => Ok(count),
            _ => Err(failed(&mut self.faults)),
        }
    }
}
