//! Instructions of locals and of `m`.
ghost use Rattle.std.specs.Prelude.{◌≡◌, ◌+◌, ◌<◌, ◌≤◌, length, IfOk, OnOk, OnErr};
ghost use Rattle.frame_stack.specs.Frame.{operands_of, slots_of, slot_value};
ghost use Rattle.brs_code.specs.declared.instr.Instr.TheVariants as i;
ghost use Rattle.actor_meaning.specs.declared.outcome.Outcome.TheVariants.{Went};
ghost use Rattle.actor_meaning.specs.Performed.{Performed};
ghost use Rattle.moving_instructions.specs.Behind.{HasPlaceBehind};
ghost use Rattle.moving_instructions.specs.Choices.{LoadPerformed};

use crate::places::place_behind;
use brs_heap::Heap;
use chan_values::NoMemory;
use frame_actions::load_slot;
use frame_stack::FrameStack;

/// `LoadM`. After an `Err` no call has changed.
pub fn load_m(heap: &mut Heap, frames: &mut FrameStack) -> Result<(), NoMemory>
    requires shares { 0 < heap.old.shares }
    requires there { 0 < length frames.old }
    requires inside { HasPlaceBehind frames.old }
    ensures ok { OnOk result (Performed heap.old frames.old heap.new frames.new Went i.LoadM) }
    ensures err { OnErr result (frames.new ≡ frames.old) }
    ensures shares { heap.old.shares ≤ heap.new.shares + 1 }
{
    let next = place_behind(frames);
    frame_actions::load_m(heap, frames, next)
}

/// `Load` of a local that was set. It is `false` exactly where the slot is unset, and then nothing changes. After an `Err` no call has
/// changed.
pub fn load(heap: &mut Heap, frames: &mut FrameStack, slot: usize) -> Result<bool, NoMemory>
    requires shares { 0 < heap.old.shares }
    requires slot { slot < length (slots_of frames.old) }
    requires there { 0 < length frames.old }
    requires inside { HasPlaceBehind frames.old }
    ensures ok { IfOk result (λ is_set. LoadPerformed (slot_value (slots_of frames.old) slot) is_set heap.old frames.old heap.new frames.new slot) }
    ensures err { OnErr result (frames.new ≡ frames.old) }
    ensures shares { heap.old.shares ≤ heap.new.shares + 1 }
{
    let next = place_behind(frames);
    load_slot(heap, frames, slot, next)
}

/// `Store`. Takes no memory.
pub fn store(heap: &mut Heap, frames: &mut FrameStack, slot: usize)
    requires operand { 0 < length (operands_of frames.old) }
    requires slot { slot < length (slots_of frames.old) }
    requires there { 0 < length frames.old }
    requires inside { HasPlaceBehind frames.old }
    ensures does { Performed heap.old frames.old heap.new frames.new Went (i.Store slot) }
    ensures shares { heap.new.shares ≡ heap.old.shares }
{
    let next = place_behind(frames);
    frame_actions::store(heap, frames, slot, next);
}
