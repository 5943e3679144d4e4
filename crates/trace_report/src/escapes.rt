//! Texts as they stand in a line.
ghost use Rattle.std.specs.Prelude.{◌≡◌, IfOk};
ghost use Rattle.chan_values.specs.Escape.{escaped};

use chan_values::{Text, escape_text};
use std::alloc::{AllocError, Global};

pub(crate) fn escaped(alloc: Global, text: &str) -> Result<Text, AllocError>
    ensures { IfOk result (λ t. t ≡ escaped text.now) }
{
    match escape_text(alloc, text) {
        Ok(text) => Ok(text),
        Err(_) => Err(AllocError),
    }
}
