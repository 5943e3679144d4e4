//! The source file of a first form.
ghost use Rattle.std.specs.Prelude.{◌≡◌, ◌<◌, ◌^◌, [], length, IsTrue, IfOk, IfSome};
ghost use Rattle.first_form.specs.FirstNames.{names_set};
ghost use Rattle.first_form.specs.FirstSource.{first_main_of};

use crate::reading::read_first;
use crate::tree::FirstMain;
use brs_tokens::lex_first;
use chan_values::NoMemory;
use std::alloc::Global;

/// The tree of a source file of the first form, `None` exactly for any other file.
pub fn first_main(alloc: Global, source: &[u8]) -> Result<Option<FirstMain>, NoMemory>
    requires { length source.now < 2 ^ 31 }
    ensures main { IfOk result (λ main. main ≡ first_main_of source.now) }
    ensures named { IfOk result (λ main. IfSome main (λ m. IsTrue (names_set [] m.lines))) }
{
    match lex_first(alloc, source)? {
        Some(tokens) => read_first(alloc, &tokens),
        None => Ok(None),
    }
}
