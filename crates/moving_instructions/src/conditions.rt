//! Instructions that choose where to go on.
ghost use Rattle.std.specs.Prelude.{◌≡◌, ◌<◌, length, cond};
ghost use Rattle.heap_meaning.specs.Heap.{Heap as Shown};
ghost use Rattle.frame_stack.specs.Frame.{operands_of};
ghost use Rattle.frame_actions.specs.Actions.{truth_of, last_value};
ghost use Rattle.brs_code.specs.declared.instr.Instr.TheVariants as i;
ghost use Rattle.actor_meaning.specs.declared.outcome.Outcome.TheVariants.{Went};
ghost use Rattle.actor_meaning.specs.Performed.{Performed};
ghost use Rattle.moving_instructions.specs.Behind.{HasPlaceBehind};
ghost use Rattle.moving_instructions.specs.Choices.{Branches};

use crate::places::place_behind;
use brs_heap::Heap;
use frame_actions::{go_to, take_truth};
use frame_stack::FrameStack;

/// Where a condition leads.
fn chosen(b: bool, next: usize, to: usize) -> usize
    ensures { result ≡ cond b next to }
{
    if b { next } else { to }
}

/// `Branch`. It is `false` exactly where the condition is no Boolean, which is an error, and then the operand alone is gone. Takes no memory.
pub fn branch(heap: &mut Heap, frames: &mut FrameStack, to: usize) -> bool
    requires operand { 0 < length (operands_of frames.old) }
    requires there { 0 < length frames.old }
    requires inside { HasPlaceBehind frames.old }
    ensures does { Branches (truth_of (last_value (operands_of frames.old))) result heap.old frames.old heap.new frames.new to }
    ensures shares { heap.new.shares ≡ heap.old.shares }
{
    let next = place_behind(frames);
    match take_truth(heap, frames) {
        None => false,
        Some(b) => {
            let place = chosen(b, next, to);
            go_to(frames, place);
            true
        }
    }
}

/// `AndTest`, where the operand decides. Takes no memory.
pub fn and_decides(frames: &mut FrameStack, to: usize)
    requires { 0 < length frames.old }
    ensures { (heap : Shown) → Performed heap frames.old heap frames.new Went (i.AndTest to) }
{
    go_to(frames, to);
}

/// `OrTest`, where the operand decides. Takes no memory.
pub fn or_decides(frames: &mut FrameStack, to: usize)
    requires { 0 < length frames.old }
    ensures { (heap : Shown) → Performed heap frames.old heap frames.new Went (i.OrTest to) }
{
    go_to(frames, to);
}
