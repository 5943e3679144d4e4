//! Operations on the arguments of a call.
ghost use Rattle.std.specs.Prelude.{◌≡◌, ◌+◌, ◌<◌, ◌≤◌, ◌^◌, length, IfOk};
ghost use Rattle.frame_stack.specs.Frame.{operands_of};
ghost use Rattle.moving_instructions.specs.Behind.{HasPlaceBehind};
ghost use Rattle.method_instructions.specs.Operating.{OperatedOn};

use brs_builtins::{Applied, Operation, apply};
use brs_heap::Heap;
use chan_values::NoMemory;
use frame_actions::{drop_to, push_value};
use frame_stack::FrameStack;
use instruction_effects::Effect;
use moving_instructions::place_behind;
use std::alloc::Global;

/// Applies an operation to the last `arguments` operands, in the order in which they were pushed: takes the last `n` operands back, puts the
/// value in their place, and leads to the next instruction. Where the operation raises an error the calls are as they were.
pub(crate) fn operate(
    alloc: Global,
    heap: &mut Heap,
    frames: &mut FrameStack,
    operation: Operation,
    arguments: usize,
    n: usize,
) -> Result<Effect, NoMemory>
    requires shares { 2 ^ 20 ≤ heap.old.shares }
    requires there { 0 < length frames.old }
    requires arguments { arguments ≤ n }
    requires operands { n ≤ length (operands_of frames.old) }
    requires inside { HasPlaceBehind frames.old }
    ensures ok { IfOk result (λ effect. OperatedOn effect heap.old frames.old heap.new frames.new n arguments operation) }
    ensures shares { heap.old.shares ≤ heap.new.shares + 2 ^ 20 }
{
    let next = place_behind(frames);
    let applied = apply(alloc, heap, operation, frames.last(arguments))?;
    match applied {
        Applied::Raised(error) => Ok(Effect::Raises(error)),
        Applied::Value(v) => {
            drop_to(heap, frames, n, next);
            push_value(frames, v, next)?;
            Ok(Effect::Went)
        }
    }
}
