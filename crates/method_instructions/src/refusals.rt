//! Calls of what can't be called.
ghost use Rattle.std.specs.Prelude.{◌≡◌, ◌<◌, length};
ghost use Rattle.frame_stack.specs.Frame.{operands_of};
ghost use Rattle.method_instructions.specs.Refusing.{MemberRefused, CallRefused, NumberRefused, MemberNumberRefused};

use brs_heap::Heap;
use chan_values::ErrorCode;
use frame_stack::FrameStack;
use instruction_effects::Effect;

/// `CallMember`, where it calls nothing and `member_at` gives this error. Takes no memory.
///
/// Source: BrightScript Language Reference, "BrightScript Interfaces".
pub fn refuse_member(heap: &Heap, frames: &FrameStack, error: ErrorCode, count: usize) -> Effect
    requires { count < length (operands_of frames.now) }
    ensures { MemberRefused result heap.now frames.now count error }
{
    Effect::Raises(error)
}

/// `Call` of a value that is no function, by `number_at`: the error E5. Takes no memory.
///
/// Source: BrightScript Language Reference, "Function Declarations".
pub fn refuse_call(heap: &Heap, frames: &FrameStack, count: usize) -> Effect
    requires { count < length (operands_of frames.now) }
    ensures { CallRefused result heap.now frames.now count }
{
    Effect::Raises(ErrorCode::E5)
}

/// `Call` of a function value whose number is no function, or a built-in one without a meaning: the error E5. Takes no memory.
pub fn refuse_number(heap: &Heap, frames: &FrameStack, count: usize) -> Effect
    requires { count < length (operands_of frames.now) }
    ensures { NumberRefused result heap.now frames.now count }
{
    Effect::Raises(ErrorCode::E5)
}

/// `CallMember`, where such a function value stands at the key of an associative array: the error E5. Takes no memory.
pub fn refuse_member_number(heap: &Heap, frames: &FrameStack, count: usize) -> Effect
    requires { count < length (operands_of frames.now) }
    ensures { MemberNumberRefused result heap.now frames.now count }
{
    Effect::Raises(ErrorCode::E5)
}
