//! Instructions that lead on, and those that drop operands.
ghost use Rattle.std.specs.Prelude.{◌≡◌, ◌<◌, ◌≤◌, length};
ghost use Rattle.heap_meaning.specs.Heap.{Heap as Shown};
ghost use Rattle.frame_stack.specs.Frame.{operands_of};
ghost use Rattle.brs_code.specs.declared.instr.Instr.TheVariants as i;
ghost use Rattle.actor_meaning.specs.declared.outcome.Outcome.TheVariants.{Went};
ghost use Rattle.actor_meaning.specs.Performed.{Performed};
ghost use Rattle.moving_instructions.specs.Behind.{IsBehind, HasPlaceBehind};

use brs_heap::Heap;
use frame_actions::{drop_to, go_to};
use frame_stack::FrameStack;

/// The place behind the next instruction of the innermost call. Takes no memory.
pub fn place_behind(frames: &FrameStack) -> usize
    requires there { 0 < length frames.now }
    requires inside { HasPlaceBehind frames.now }
    ensures { IsBehind frames.now result }
{
    let head = frames.head();
    head.place + 1
}

/// `While`. Takes no memory.
pub fn while_begins(frames: &mut FrameStack)
    requires there { 0 < length frames.old }
    requires inside { HasPlaceBehind frames.old }
    ensures { (heap : Shown) → Performed heap frames.old heap frames.new Went i.While }
{
    let next = place_behind(frames);
    go_to(frames, next);
}

/// `Again`. Takes no memory.
pub fn again(frames: &mut FrameStack, to: usize)
    requires { 0 < length frames.old }
    ensures { (heap : Shown) → Performed heap frames.old heap frames.new Went (i.Again to) }
{
    go_to(frames, to);
}

/// `Drop`. Takes no memory.
pub fn drop_last(heap: &mut Heap, frames: &mut FrameStack)
    requires there { 0 < length frames.old }
    requires operand { 1 ≤ length (operands_of frames.old) }
    requires inside { HasPlaceBehind frames.old }
    ensures does { Performed heap.old frames.old heap.new frames.new Went i.Drop }
    ensures shares { heap.new.shares ≡ heap.old.shares }
{
    let next = place_behind(frames);
    drop_to(heap, frames, 1, next);
}

/// `Exit`. Takes no memory.
pub fn exit(heap: &mut Heap, frames: &mut FrameStack, count: usize, to: usize)
    requires there { 0 < length frames.old }
    requires operands { count ≤ length (operands_of frames.old) }
    ensures does { Performed heap.old frames.old heap.new frames.new Went (i.Exit count to) }
    ensures shares { heap.new.shares ≡ heap.old.shares }
{
    drop_to(heap, frames, count, to);
}
