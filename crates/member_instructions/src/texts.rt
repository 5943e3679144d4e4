//! Texts of a function.
ghost use Rattle.std.specs.Prelude.{◌≡◌, ◌<◌, length, Some, slice_get};

use brs_code::Function;
use chan_values::Text;

/// A text of a function, by its number. Takes no memory.
pub fn text_at(function: &Function, n: usize) -> &Text
    requires { n < length function.now.texts }
    ensures { slice_get function.now.texts n ≡ Some result.now }
{
    match function.texts.get(n) {
        Some(text) => text,
        None => unreachable!(),
    }
}
