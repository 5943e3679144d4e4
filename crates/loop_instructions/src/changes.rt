//! What instructions of `for` change in the innermost call.
ghost use Rattle.std.specs.Prelude.{◌≡◌, ◌<◌, ◌≤◌, length, OnOk};
ghost use Rattle.frame_stack.specs.Frame.{operands_of, slots_of, changed};
ghost use Rattle.frame_actions.specs.Actions.{Carries};
ghost use Rattle.loop_instructions.specs.Changes.{with_number, begun, turned};

use crate::numbers::{Number, Range, plain_of};
use brs_heap::{Heap, Value};
use call_release::release_slot;
use chan_values::NoMemory;
use frame_actions::{drop_to, go_to, push_value};
use frame_stack::FrameStack;

/// Sets a slot to a number. Takes no memory.
pub(crate) fn set_number(heap: &mut Heap, frames: &mut FrameStack, slot: usize, number: Number)
    requires { slot < length (slots_of frames.old) }
    ensures frames { frames.new ≡ changed (with_number slot number) frames.old }
    ensures carries { Carries heap.old frames.old heap.new frames.new }
    ensures shares { heap.new.shares ≡ heap.old.shares }
{
    let was = frames.set_slot(slot, Value::plain(plain_of(number)));
    release_slot(heap, was);
}

/// Puts the end and the step in the place of so many operands, sets the variable to the start, and leads to a place.
pub(crate) fn begin(
    heap: &mut Heap,
    frames: &mut FrameStack,
    slot: usize,
    taken: usize,
    range: Range,
    place: usize,
) -> Result<(), NoMemory>
    requires slot { slot < length (slots_of frames.old) }
    requires operands { taken ≤ length (operands_of frames.old) }
    ensures frames { OnOk result (frames.new ≡ changed (begun slot taken place range) frames.old) }
    ensures carries { OnOk result (Carries heap.old frames.old heap.new frames.new) }
    ensures shares { heap.new.shares ≡ heap.old.shares }
{
    drop_to(heap, frames, taken, place);
    push_value(frames, Value::plain(plain_of(range.end)), place)?;
    push_value(frames, Value::plain(plain_of(range.step)), place)?;
    set_number(heap, frames, slot, range.start);
    Ok(())
}

/// Stays in the loop and leads to its body, or drops what the loop kept and leads behind it. Takes no memory.
pub(crate) fn turn(
    heap: &mut Heap,
    frames: &mut FrameStack,
    stays: bool,
    body: usize,
    behind: usize,
)
    requires there { 0 < length frames.old }
    requires operands { 2 ≤ length (operands_of frames.old) }
    ensures frames { frames.new ≡ changed (turned stays body behind) frames.old }
    ensures carries { Carries heap.old frames.old heap.new frames.new }
    ensures shares { heap.new.shares ≡ heap.old.shares }
{
    if stays {
        go_to(frames, body);
    } else {
        drop_to(heap, frames, 2, behind);
    }
}
