//! Locals, and the `m` of the innermost call.
ghost use Rattle.std.specs.Prelude.{◌≡◌, ◌+◌, ◌<◌, ◌≤◌, length, IfSome, IfNone, IfOk, OnOk, OnErr};
ghost use Rattle.frame_stack.specs.Frame.{operands_of, slots_of, slot_value, innermost, changed};
ghost use Rattle.frame_actions.specs.Actions.{pushed, stored, Loaded, Carries, Hands};

use crate::operands::{push_value, take_value};
use crate::places::go_to;
use brs_heap::{Heap, Value};
use call_release::release_slot;
use chan_values::NoMemory;
use frame_stack::FrameStack;

/// Takes the last operand's value into a slot, takes back what was there, and leads to a place. Takes no memory.
pub fn store(heap: &mut Heap, frames: &mut FrameStack, slot: usize, place: usize)
    requires operand { 0 < length (operands_of frames.old) }
    requires slot { slot < length (slots_of frames.old) }
    ensures frames { frames.new ≡ changed (stored slot place) frames.old }
    ensures carries { Carries heap.old frames.old heap.new frames.new }
    ensures shares { heap.new.shares ≡ heap.old.shares }
{
    let v = take_value(heap, frames);
    let was = frames.set_slot(slot, v);
    release_slot(heap, was);
    go_to(frames, place);
}

/// One more value like the one in a slot, `None` exactly where it is unset. Takes no memory.
fn share_slot(heap: &mut Heap, frames: &FrameStack, slot: usize) -> Option<Value>
    requires shares { 0 < heap.old.shares }
    requires slot { slot < length (slots_of frames.now) }
    ensures value { result ≡ slot_value (slots_of frames.now) slot }
    ensures hands { IfSome result (λ v. Hands heap.old frames.now heap.new frames.now v) }
    ensures unchanged { IfNone result (heap.new ≡ heap.old) }
    ensures shares { heap.old.shares ≤ heap.new.shares + 1 }
{
    match frames.slot(slot) {
        None => None,
        Some(v) => Some(heap.share(v)),
    }
}

/// One more value like the `m` of the innermost call. Takes no memory.
fn share_m(heap: &mut Heap, frames: &FrameStack) -> Value
    requires shares { 0 < heap.old.shares }
    requires there { 0 < length frames.now }
    ensures value { IfSome (innermost frames.now) (λ frame. result ≡ frame.m) }
    ensures hands { Hands heap.old frames.now heap.new frames.now result }
    ensures shares { heap.old.shares ≤ heap.new.shares + 1 }
{
    heap.share(frames.m())
}

/// Puts the value of a slot on the operands, and leads to a place. It is `false` exactly where the slot is unset, and then nothing changes.
/// After an `Err` no call has changed.
pub fn load_slot(
    heap: &mut Heap,
    frames: &mut FrameStack,
    slot: usize,
    place: usize,
) -> Result<bool, NoMemory>
    requires shares { 0 < heap.old.shares }
    requires slot { slot < length (slots_of frames.old) }
    ensures loaded { IfOk result (λ is_set. Loaded (slot_value (slots_of frames.old) slot) place is_set heap.old frames.old heap.new frames.new) }
    ensures err { OnErr result (frames.new ≡ frames.old) }
    ensures shares { heap.old.shares ≤ heap.new.shares + 1 }
{
    match share_slot(heap, frames, slot) {
        None => Ok(false),
        Some(v) => {
            push_value(frames, v, place)?;
            Ok(true)
        }
    }
}

/// Puts the `m` of the innermost call on its operands, and leads to a place. After an `Err` no call has changed.
pub fn load_m(heap: &mut Heap, frames: &mut FrameStack, place: usize) -> Result<(), NoMemory>
    requires shares { 0 < heap.old.shares }
    requires there { 0 < length frames.old }
    ensures loaded { OnOk result (IfSome (innermost frames.old) (λ frame. frames.new ≡ changed (pushed frame.m place) frames.old)) }
    ensures carries { OnOk result (Carries heap.old frames.old heap.new frames.new) }
    ensures err { OnErr result (frames.new ≡ frames.old) }
    ensures shares { heap.old.shares ≤ heap.new.shares + 1 }
{
    let m = share_m(heap, frames);
    push_value(frames, m, place)
}
