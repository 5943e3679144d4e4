//! What instructions of `for` find in the innermost call.
ghost use Rattle.std.specs.Prelude.{◌≡◌, ◌<◌, length, slice_get};
ghost use Rattle.frame_stack.specs.Operand.{values};
ghost use Rattle.frame_stack.specs.Frame.{operands_of, slots_of, slot_value};
ghost use Rattle.loop_instructions.specs.Numbers.{number_at};

use crate::numbers::{Number, number_of};
use brs_heap::Heap;
use frame_stack::FrameStack;

/// The number that an operand is, of which the last has the place 0. Takes no memory.
pub(crate) fn operand_number(heap: &Heap, frames: &FrameStack, at: usize) -> Option<Number>
    requires small { at < 3 }
    requires there { at < length (operands_of frames.now) }
    ensures { result ≡ number_at (slice_get (values (operands_of frames.now)) at) }
{
    match frames.last(at + 1).first() {
        None => None,
        Some(v) => number_of(heap.plain(v)),
    }
}

/// The number that the value of a slot is. Takes no memory.
pub(crate) fn slot_number(heap: &Heap, frames: &FrameStack, slot: usize) -> Option<Number>
    requires { slot < length (slots_of frames.now) }
    ensures { result ≡ number_at (slot_value (slots_of frames.now) slot) }
{
    match frames.slot(slot) {
        None => None,
        Some(v) => number_of(heap.plain(v)),
    }
}
