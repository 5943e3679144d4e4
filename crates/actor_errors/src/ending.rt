//! Errors that end all calls of an actor.
ghost use Rattle.std.specs.Prelude.{◌≡◌, ◌<◌, length};
ghost use Rattle.actor_errors.specs.Raising.{Raises, RaisesHandedBack};

use actor_meaning::Outcome;
use brs_heap::Heap;
use call_release::release_calls;
use chan_values::{ErrorCode, Place};
use frame_stack::FrameStack;

/// Raises an error at an instruction of this line of the innermost call, whose operands may be gone already: ends all calls, takes back
/// what they held, and tells the error with its place. Takes no memory.
///
/// Source: BrightScript Language Reference, "Runtime Errors".
pub fn raise(heap: &mut Heap, frames: &mut FrameStack, error: ErrorCode, line: u32) -> Outcome
    requires { 0 < length frames.old }
    ensures raises { Raises error line heap.old frames.old heap.new frames.new result }
    ensures shares { heap.new.shares ≡ heap.old.shares }
{
    let head = frames.head();
    release_calls(heap, frames);
    Outcome::Raised(
        error,
        Place {
            path: head.path,
            line,
        },
    )
}

/// Raises the error that was handed back to the innermost call, at the instruction that asked: ends all calls, takes back what they held,
/// and tells the error with its place. Takes no memory.
///
/// Source: BrightScript Language Reference, "Runtime Errors".
pub fn raise_handed_back(heap: &mut Heap, frames: &mut FrameStack, error: ErrorCode) -> Outcome
    requires { 0 < length frames.old }
    ensures raises { RaisesHandedBack error heap.old frames.old heap.new frames.new result }
    ensures shares { heap.new.shares ≡ heap.old.shares }
{
    let head = frames.head();
    raise(heap, frames, error, head.line)
}
