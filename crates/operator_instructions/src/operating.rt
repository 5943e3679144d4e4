//! Operations on the last operands of the innermost call.
ghost use Rattle.std.specs.Prelude.{◌≡◌, ◌+◌, ◌<◌, ◌≤◌, ◌^◌, length, IfOk};
ghost use Rattle.frame_stack.specs.Frame.{operands_of};
ghost use Rattle.brs_code.specs.declared.instr.Instr.{Instr};
ghost use Rattle.moving_instructions.specs.Behind.{HasPlaceBehind};
ghost use Rattle.operator_instructions.specs.Operated.{Operated, IsOperation};

use brs_builtins::{Applied, Operation, apply};
use brs_heap::Heap;
use chan_values::{ErrorCode, NoMemory};
use frame_actions::{drop_to, push_value};
use frame_stack::FrameStack;
use moving_instructions::place_behind;
use std::alloc::Global;

/// Applies an operation to so many of the last operands, in the order in which they were pushed: takes them back, puts the value in their
/// place, and leads to the next instruction. Where the operation raises an error it answers that error, and the calls are as they were.
pub(crate) fn operate_on(
    alloc: Global,
    heap: &mut Heap,
    frames: &mut FrameStack,
    operation: Operation,
    n: usize,
) -> Result<Option<ErrorCode>, NoMemory>
    requires shares { 2 ^ 20 ≤ heap.old.shares }
    requires there { 0 < length frames.old }
    requires operands { n ≤ length (operands_of frames.old) }
    requires inside { HasPlaceBehind frames.old }
    ensures ok { IfOk result (λ error. (instr : Instr) → IsOperation instr n operation → Operated error heap.old frames.old heap.new frames.new instr) }
    ensures shares { heap.old.shares ≤ heap.new.shares + 2 ^ 20 }
{
    let next = place_behind(frames);
    let applied = apply(alloc, heap, operation, frames.last(n))?;
    match applied {
        Applied::Raised(error) => Ok(Some(error)),
        Applied::Value(v) => {
            drop_to(heap, frames, n, next);
            push_value(frames, v, next)?;
            Ok(None)
        }
    }
}
