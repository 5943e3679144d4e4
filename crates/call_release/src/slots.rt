//! Slots that are taken back.
ghost use Rattle.std.specs.Prelude.{◌≡◌};
ghost use Rattle.heap_meaning.specs.Heap.{Moves, no_references};
ghost use Rattle.frame_stack.specs.Frame.{slots_of, changed};
ghost use Rattle.call_release.specs.References.{slot_references};
ghost use Rattle.call_release.specs.Taken.{slot_reference, without_slots};

use brs_heap::{Heap, Value};
use frame_stack::FrameStack;

/// Takes the value of a slot back. Takes no memory.
pub fn release_slot(heap: &mut Heap, slot: Option<Value>)
    ensures moves { Moves heap.old heap.new (λ k. slot_reference k slot) no_references }
    ensures shares { heap.new.shares ≡ heap.old.shares }
{
    match slot {
        Some(v) => heap.release(v),
        None => {}
    }
}

/// Takes all slots of the innermost call away, and takes their values back. Takes no memory.
pub fn drop_slots(heap: &mut Heap, frames: &mut FrameStack)
    ensures moves { Moves heap.old heap.new (λ k. slot_references k (slots_of frames.old)) no_references }
    ensures frames { frames.new ≡ changed without_slots frames.old }
    ensures shares { heap.new.shares ≡ heap.old.shares }
{
    let count = frames.slot_count();
    for _i in 0..count {
        let slot = frames.pop_slot();
        release_slot(heap, slot);
    }
}
