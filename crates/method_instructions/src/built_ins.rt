//! Calls of built-in functions.
ghost use Rattle.std.specs.Prelude.{◌≡◌, ◌+◌, ◌<◌, ◌≤◌, ◌^◌, length, IfOk};
ghost use Rattle.frame_stack.specs.Frame.{operands_of};
ghost use Rattle.moving_instructions.specs.Behind.{HasPlaceBehind};
ghost use Rattle.method_instructions.specs.Operating.{OperatedOn};
ghost use Rattle.method_instructions.specs.Calling.{BuiltInCalled, MemberBuiltInCalled};

use crate::callees::with_callee;
use crate::operating::operate;
use brs_builtins::Operation;
use brs_heap::Heap;
use chan_values::NoMemory;
use frame_stack::FrameStack;
use instruction_effects::Effect;
use std::alloc::Global;

/// The operation on so many arguments, which takes the value that they are given to as well.
fn operate_on_arguments(
    alloc: Global,
    heap: &mut Heap,
    frames: &mut FrameStack,
    operation: Operation,
    count: usize,
) -> Result<Effect, NoMemory>
    requires shares { 2 ^ 20 ≤ heap.old.shares }
    requires there { 0 < length frames.old }
    requires operands { count < length (operands_of frames.old) }
    requires inside { HasPlaceBehind frames.old }
    ensures ok { IfOk result (λ effect. OperatedOn effect heap.old frames.old heap.new frames.new (count + 1) count operation) }
    ensures shares { heap.old.shares ≤ heap.new.shares + 2 ^ 20 }
{
    let n = with_callee(frames, count);
    operate(alloc, heap, frames, operation, count, n)
}

/// `Call` of a built-in function that is this operation, by `number_at`, `function_called` and `built_in_called`. After an `Err` the actor has
/// no further step.
///
/// Source: BrightScript Language Reference, "Global Utility Functions".
pub fn call_built_in(
    alloc: Global,
    heap: &mut Heap,
    frames: &mut FrameStack,
    operation: Operation,
    count: usize,
) -> Result<Effect, NoMemory>
    requires shares { 2 ^ 20 ≤ heap.old.shares }
    requires there { 0 < length frames.old }
    requires operands { count < length (operands_of frames.old) }
    requires inside { HasPlaceBehind frames.old }
    ensures ok { IfOk result (λ effect. BuiltInCalled effect heap.old frames.old heap.new frames.new count operation) }
    ensures shares { heap.old.shares ≤ heap.new.shares + 2 ^ 20 }
{
    operate_on_arguments(alloc, heap, frames, operation, count)
}

/// `CallMember`, where a built-in function that is this operation stands at the key of an associative array. After an `Err` the actor has no
/// further step.
///
/// Source: BrightScript Language Reference, "Global Utility Functions".
pub fn call_built_in_member(
    alloc: Global,
    heap: &mut Heap,
    frames: &mut FrameStack,
    operation: Operation,
    count: usize,
) -> Result<Effect, NoMemory>
    requires shares { 2 ^ 20 ≤ heap.old.shares }
    requires there { 0 < length frames.old }
    requires operands { count < length (operands_of frames.old) }
    requires inside { HasPlaceBehind frames.old }
    ensures ok { IfOk result (λ effect. MemberBuiltInCalled effect heap.old frames.old heap.new frames.new count operation) }
    ensures shares { heap.old.shares ≤ heap.new.shares + 2 ^ 20 }
{
    operate_on_arguments(alloc, heap, frames, operation, count)
}
