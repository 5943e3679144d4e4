//! Instructions that leave a function.
ghost use Rattle.std.specs.Prelude.{◌≡◌, ℕ, ◌<◌, length, IfOk};
ghost use Rattle.brs_code.specs.declared.instr.Instr.TheVariants as i;
ghost use Rattle.frame_stack.specs.Frame.{operands_of};
ghost use Rattle.instruction_effects.specs.Effects.{Runs, Anywhere};
ghost use Rattle.return_instructions.specs.Left.{LeavesCall};

use crate::departure::leave;
use crate::leaving::Leaving;
use brs_code::Function;
use brs_heap::{Heap, Plain, Value};
use chan_values::{ErrorCode, NoMemory};
use frame_stack::FrameStack;
use std::alloc::Global;
use typed_values::take_typed;

/// `Return`, in a call of this function, at this line: the last operand, as the type of the function's value takes it, is what the call
/// returns. Where the type doesn't take it, the operand alone is gone. After an `Err` the actor has no further step.
///
/// Source: BrightScript Language Reference, "RETURN".
pub fn return_value(
    alloc: Global,
    heap: &mut Heap,
    frames: &mut FrameStack,
    function: &Function,
    line: u32,
) -> Result<Leaving, NoMemory>
    requires operand { 0 < length (operands_of frames.old) }
    ensures ok { IfOk result (λ left. LeavesCall (Runs function.now frames.old) line heap.old frames.old heap.new frames.new left i.Return) }
    ensures shares { heap.new.shares ≡ heap.old.shares }
{
    match take_typed(heap, frames, function.value) {
        Some(v) => leave(alloc, heap, frames, v, line),
        None => Ok(Leaving::Raises(ErrorCode::E2)),
    }
}

/// `ReturnInvalid`, at this line: the call returns `invalid`. After an `Err` the actor has no further step.
///
/// Source: BrightScript Language Reference, "RETURN".
pub fn return_invalid(
    alloc: Global,
    heap: &mut Heap,
    frames: &mut FrameStack,
    line: u32,
) -> Result<Leaving, NoMemory>
    requires there { 0 < length frames.old }
    ensures ok { IfOk result (λ left. LeavesCall Anywhere line heap.old frames.old heap.new frames.new left i.ReturnInvalid) }
    ensures shares { heap.new.shares ≡ heap.old.shares }
{
    leave(alloc, heap, frames, Value::plain(Plain::Invalid), line)
}

/// `End`, in a call of this function: the call returns `invalid` at its end. After an `Err` the actor has no further step.
///
/// Source: BrightScript Language Reference, "Function()/End Function".
pub fn end_function(
    alloc: Global,
    heap: &mut Heap,
    frames: &mut FrameStack,
    function: &Function,
) -> Result<Leaving, NoMemory>
    requires there { 0 < length frames.old }
    ensures ok { IfOk result (λ left. (line : ℕ) → LeavesCall (Runs function.now frames.old) line heap.old frames.old heap.new frames.new left i.End) }
    ensures shares { heap.new.shares ≡ heap.old.shares }
{
    leave(
        alloc,
        heap,
        frames,
        Value::plain(Plain::Invalid),
        function.line,
    )
}
