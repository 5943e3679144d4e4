//! What observes a field.
ghost use Rattle.std.specs.Prelude.{◌≡◌, IfOk};
ghost use Rattle.std.specs.String.{string_bytes};
ghost use Rattle.trace_report.specs.TraceText.{observer_text};

use crate::escapes::escaped;
use std::alloc::{AllocError, Global};

/// What a change of a field is told to.
#[derive(Clone, Copy, Debug)]
pub enum Observer<'a> {
    /// A function of the render thread, by its folded name.
    Function(&'a str),
    /// A message port, by its number: `port.p`.
    Port(u32),
}

pub(crate) fn observer_text(alloc: Global, to: &Observer<'_>) -> Result<String, AllocError>
    ensures { IfOk result (λ text. string_bytes text ≡ observer_text to.now) }
{
    match to {
        Observer::Function(name) => Ok(escaped(alloc, name)?.into_string()),
        Observer::Port(port) => format!(in alloc; "port.{port}"),
    }
}
