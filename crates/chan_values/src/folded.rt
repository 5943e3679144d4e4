//! Names, which are compared without regard to the case of ASCII letters.
ghost use Rattle.std.specs.Prelude.{◌≡◌, IfOk, IsUtf8};
ghost use Rattle.chan_values.specs.Folded.{folded};

use crate::{NoMemory, Text};
use std::alloc::Global;

/// The name with each ASCII capital letter as the small one, and every other character as it is.
///
/// Source: BrightScript Language Reference, "Identifiers": identifiers are not case sensitive.
pub fn fold_name(alloc: Global, t: &[u8]) -> Result<Text, NoMemory>
    requires { IsUtf8 t.now }
    ensures { IfOk result (λ name. name ≡ folded t.now) }
{
    let Ok(name) = str::from_utf8(t) else {
        unreachable!()
    };
    match name.to_ascii_lowercase(alloc) {
        Ok(name) => Ok(Text::from_string(name)),
        Err(_) => Err(NoMemory),
    }
}
