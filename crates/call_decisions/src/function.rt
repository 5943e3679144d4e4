//! What the call of a value calls.
ghost use Rattle.std.specs.Prelude.{◌≡◌, length};
ghost use Rattle.machine_meaning.specs.Image.{Image};
ghost use Rattle.heap_meaning.specs.Reading.{plain_of};
ghost use Rattle.call_decisions.specs.Functions.{FunctionCallIs, number_of};
ghost use Rattle.call_decisions.specs.CallRows.{IsCallRow};

use brs_code::Code;
use brs_heap::{Heap, Plain, Value};

/// Which function a number is.
#[derive(Clone, Copy, Debug, PartialEq, Eq)]
pub enum FunctionCall {
    /// A function of the source.
    Source,
    /// The built-in function at this place of the list.
    BuiltIn(usize),
    /// No function.
    Nothing,
}

fn function_number(plain: Option<Plain>) -> Option<u32>
    ensures { result ≡ number_of plain }
{
    match plain {
        Some(Plain::Function(n)) => Some(n),
        _ => None,
    }
}

/// The number of the function that a value is. A call of what is none is the error E5. Takes no memory.
pub fn number_called(heap: &Heap, v: &Value) -> Option<u32>
    ensures number { result ≡ number_of (plain_of v.now) }
    ensures row { IsCallRow heap.now v.now result }
{
    function_number(heap.plain(v))
}

/// Which function a number is, in a channel with this code and so many built-in functions. A call of no function is the error E5. Takes no
/// memory.
pub fn function_called(code: &Code, built_ins: usize, n: u32) -> FunctionCall
    ensures { (image : Image) → image.code ≡ code.now → length image.built_ins ≡ built_ins → FunctionCallIs image n result }
{
    let number = n as usize;
    let count = code.function_count();
    if number < count {
        return FunctionCall::Source;
    }
    if number - count < built_ins {
        FunctionCall::BuiltIn(number - count)
    } else {
        FunctionCall::Nothing
    }
}
