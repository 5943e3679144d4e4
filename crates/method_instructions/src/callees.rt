//! What the innermost call is about to call.
ghost use Rattle.std.specs.Prelude.{◌≡◌, ◌+◌, ◌<◌, length};
ghost use Rattle.heap_meaning.specs.Reading.{plain_of};
ghost use Rattle.frame_stack.specs.Frame.{operands_of};
ghost use Rattle.call_decisions.specs.Functions.{number_of};
ghost use Rattle.call_decisions.specs.MemberCalls.{member_called};
ghost use Rattle.method_instructions.specs.Callees.{callee};

use brs_heap::{Heap, Value};
use call_decisions::{MemberCall, number_called};
use frame_stack::FrameStack;

/// So many arguments and the value that they are given to. Takes no memory.
pub(crate) fn with_callee(frames: &FrameStack, count: usize) -> usize
    requires { count < length (operands_of frames.now) }
    ensures { result ≡ count + 1 }
{
    // The call tells that as many operands as there are can be counted, so one more than `count` can be.
    let _there = frames.operand_count();
    count + 1
}

/// The value that so many arguments are given to.
fn called_value(frames: &FrameStack, count: usize) -> &Value
    requires { count < length (operands_of frames.now) }
    ensures { result.now ≡ callee count frames.now }
{
    let last = frames.last(with_callee(frames, count));
    &last[0]
}

/// What a call of the member of this folded name calls, with so many arguments behind the value. Takes no memory.
///
/// Source: BrightScript Language Reference, "BrightScript Interfaces".
pub fn member_at(heap: &Heap, frames: &FrameStack, name: &[u8], count: usize) -> MemberCall
    requires { count < length (operands_of frames.now) }
    ensures { result ≡ member_called heap.now (callee count frames.now) name.now }
{
    call_decisions::member_called(heap, called_value(frames, count), name)
}

/// The number of the function that a call calls, with so many arguments behind it; `None` exactly where the value is no function. Takes no
/// memory.
pub fn number_at(heap: &Heap, frames: &FrameStack, count: usize) -> Option<u32>
    requires { count < length (operands_of frames.now) }
    ensures { result ≡ number_of (plain_of (callee count frames.now)) }
{
    number_called(heap, called_value(frames, count))
}
