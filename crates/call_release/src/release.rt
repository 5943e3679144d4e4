//! Calls that are taken back.
ghost use Rattle.std.specs.Prelude.{◌≡◌, ◌<◌, [], length};
ghost use Rattle.heap_meaning.specs.Heap.{Moves, no_references};
ghost use Rattle.frame_stack.specs.Frame.{calls_below};
ghost use Rattle.call_release.specs.References.{call_references};
ghost use Rattle.call_release.specs.Taken.{innermost_references};

use crate::operands::drop_operands;
use crate::slots::drop_slots;
use brs_heap::Heap;
use frame_stack::FrameStack;

/// Ends the innermost call, and takes back what it held. Takes no memory.
pub fn release_call(heap: &mut Heap, frames: &mut FrameStack)
    requires { 0 < length frames.old }
    ensures moves { Moves heap.old heap.new (λ k. innermost_references k frames.old) no_references }
    ensures frames { frames.new ≡ calls_below frames.old }
    ensures shares { heap.new.shares ≡ heap.old.shares }
{
    let operands = frames.operand_count();
    drop_operands(heap, frames, operands);
    drop_slots(heap, frames);
    let m = frames.leave();
    heap.release(m);
}

/// Ends all calls, and takes back what they held. Takes no memory.
pub fn release_calls(heap: &mut Heap, frames: &mut FrameStack)
    ensures moves { Moves heap.old heap.new (λ k. call_references k frames.old) no_references }
    ensures frames { frames.new ≡ [] }
    ensures shares { heap.new.shares ≡ heap.old.shares }
{
    let count = frames.call_count();
    for _i in 0..count {
        release_call(heap, frames);
    }
}
