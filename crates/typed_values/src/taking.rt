//! The last operand as a type takes it.
ghost use Rattle.std.specs.Prelude.{◌≡◌, ◌<◌, length};
ghost use Rattle.frame_stack.specs.Frame.{operands_of, changed, without_operands};
ghost use Rattle.typed_values.specs.Taken.{Takes};

use crate::fitting::typed;
use brs_code::ValueType;
use brs_heap::{Heap, Value};
use frame_actions::take_value;
use frame_stack::FrameStack;

/// Takes the last operand out, as the type takes it. It is `None` exactly where the type doesn't take it, and then the operand is taken
/// back. Takes no memory.
///
/// Source: BrightScript Language Reference, "Function()/End Function".
pub fn take_typed(heap: &mut Heap, frames: &mut FrameStack, kind: ValueType) -> Option<Value>
    requires { 0 < length (operands_of frames.old) }
    ensures takes { Takes kind heap.old frames.old heap.new frames.new result }
    ensures frames { frames.new ≡ changed (without_operands 1) frames.old }
    ensures shares { heap.new.shares ≡ heap.old.shares }
{
    let v = take_value(heap, frames);
    match typed(heap, kind, v) {
        Ok(taken) => Some(taken),
        Err(back) => {
            heap.release(back);
            None
        }
    }
}
