//! The names of the render thread's inbox entries.
ghost use Rattle.std.specs.Prelude.{Some};
ghost use Rattle.trace_report.specs.TraceText.{entry_text};

use std::fmt;

/// An entry of the render thread's inbox, as the lines of its begin and its end name it.
#[derive(Clone, Copy, Debug, PartialEq, Eq)]
pub enum EntryName {
    /// The post of an actor with this number, counted from 1: `actor.number`.
    Post(u32, u64),
    /// The key with this number, counted from 1: `key.number`.
    Key(u64),
}

impl fmt::Display for EntryName {
    ghost output = { λ entry. Some (entry_text entry) };

    fn fmt<W: fmt::Write>(&self, f: &mut fmt::Formatter<W>) -> fmt::Result {
        match self {
            EntryName::Post(actor, number) => write!(f, "{actor}.{number}"),
            EntryName::Key(number) => write!(f, "key.{number}"),
        }
    }
}
