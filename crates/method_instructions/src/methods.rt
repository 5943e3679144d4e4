//! Calls of built-in methods.
ghost use Rattle.std.specs.Prelude.{◌≡◌, ◌+◌, ◌<◌, ◌≤◌, ◌^◌, length, IfOk};
ghost use Rattle.frame_stack.specs.Frame.{operands_of};
ghost use Rattle.moving_instructions.specs.Behind.{HasPlaceBehind};
ghost use Rattle.method_instructions.specs.Calling.{MethodCalled};

use crate::callees::with_callee;
use crate::operating::operate;
use brs_builtins::Operation;
use brs_heap::Heap;
use chan_values::NoMemory;
use frame_stack::FrameStack;
use instruction_effects::Effect;
use std::alloc::Global;

/// `CallMember`, where it calls a built-in method of a value that is no node, no port and no screen: this operation, by `member_at`. After an
/// `Err` the actor has no further step.
///
/// Source: BrightScript Language Reference, "BrightScript Interfaces".
pub fn call_method(
    alloc: Global,
    heap: &mut Heap,
    frames: &mut FrameStack,
    operation: Operation,
    count: usize,
) -> Result<Effect, NoMemory>
    requires shares { 2 ^ 20 ≤ heap.old.shares }
    requires there { 0 < length frames.old }
    requires operands { count < length (operands_of frames.old) }
    requires inside { HasPlaceBehind frames.old }
    ensures ok { IfOk result (λ effect. MethodCalled effect heap.old frames.old heap.new frames.new count operation) }
    ensures shares { heap.old.shares ≤ heap.new.shares + 2 ^ 20 }
{
    let n = with_callee(frames, count);
    operate(alloc, heap, frames, operation, n, n)
}
