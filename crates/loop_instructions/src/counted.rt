//! Instructions of `for`.
ghost use Rattle.std.specs.Prelude.{◌≡◌, ◌<◌, ◌≤◌, length, IfOk};
ghost use Rattle.frame_stack.specs.Frame.{operands_of, slots_of};
ghost use Rattle.brs_code.specs.declared.instr.Instr.TheVariants as i;
ghost use Rattle.moving_instructions.specs.Behind.{HasPlaceBehind};
ghost use Rattle.instruction_effects.specs.Effects.{DoesAnywhere};

use crate::changes::{begin, set_number, turn};
use crate::numbers::{Number, goes_on, range_of, sum_of};
use crate::reading::{operand_number, slot_number};
use brs_heap::Heap;
use chan_values::{ErrorCode, NoMemory};
use frame_actions::go_to;
use frame_stack::FrameStack;
use instruction_effects::Effect;
use moving_instructions::place_behind;

/// `For`, whose step is 1. Where the start or the end is no number it raises E2, and nothing has changed. After an `Err` the actor has no
/// further step.
///
/// Source: BrightScript Language Reference, "FOR / TO / STEP / END FOR".
pub fn begin_for(heap: &mut Heap, frames: &mut FrameStack, slot: usize) -> Result<Effect, NoMemory>
    requires slot { slot < length (slots_of frames.old) }
    requires operands { 2 ≤ length (operands_of frames.old) }
    requires inside { HasPlaceBehind frames.old }
    ensures ok { IfOk result (λ effect. DoesAnywhere heap.old frames.old heap.new frames.new effect (i.For slot)) }
    ensures shares { heap.new.shares ≡ heap.old.shares }
{
    let next = place_behind(frames);
    let start = operand_number(heap, frames, 1);
    let end = operand_number(heap, frames, 0);
    match range_of(start, end, Some(Number::Small(1))) {
        None => Ok(Effect::Raises(ErrorCode::E2)),
        Some(range) => {
            begin(heap, frames, slot, 2, range, next)?;
            Ok(Effect::Went)
        }
    }
}

/// `ForStep`. Where the start, the end or the step is no number it raises E2, and nothing has changed. After an `Err` the actor has no
/// further step.
///
/// Source: BrightScript Language Reference, "FOR / TO / STEP / END FOR".
pub fn begin_for_step(
    heap: &mut Heap,
    frames: &mut FrameStack,
    slot: usize,
) -> Result<Effect, NoMemory>
    requires slot { slot < length (slots_of frames.old) }
    requires operands { 3 ≤ length (operands_of frames.old) }
    requires inside { HasPlaceBehind frames.old }
    ensures ok { IfOk result (λ effect. DoesAnywhere heap.old frames.old heap.new frames.new effect (i.ForStep slot)) }
    ensures shares { heap.new.shares ≡ heap.old.shares }
{
    let next = place_behind(frames);
    let start = operand_number(heap, frames, 2);
    let end = operand_number(heap, frames, 1);
    let step = operand_number(heap, frames, 0);
    match range_of(start, end, step) {
        None => Ok(Effect::Raises(ErrorCode::E2)),
        Some(range) => {
            begin(heap, frames, slot, 3, range, next)?;
            Ok(Effect::Went)
        }
    }
}

/// `ForTest`. Where the variable, the end or the step is no number it raises E2, and nothing has changed. Takes no memory.
///
/// Source: BrightScript Language Reference, "FOR / TO / STEP / END FOR".
pub fn test_for(heap: &mut Heap, frames: &mut FrameStack, slot: usize, to: usize) -> Effect
    requires slot { slot < length (slots_of frames.old) }
    requires operands { 2 ≤ length (operands_of frames.old) }
    requires inside { HasPlaceBehind frames.old }
    ensures does { DoesAnywhere heap.old frames.old heap.new frames.new result (i.ForTest slot to) }
    ensures shares { heap.new.shares ≡ heap.old.shares }
{
    let next = place_behind(frames);
    let now = slot_number(heap, frames, slot);
    let end = operand_number(heap, frames, 1);
    let step = operand_number(heap, frames, 0);
    match range_of(now, end, step) {
        None => Effect::Raises(ErrorCode::E2),
        Some(range) => {
            turn(heap, frames, goes_on(range), next, to);
            Effect::Went
        }
    }
}

/// `ForNext`. Where the variable or the step is no number it raises E2, and nothing has changed. Takes no memory.
///
/// Source: BrightScript Language Reference, "FOR / TO / STEP / END FOR".
pub fn next_for(heap: &mut Heap, frames: &mut FrameStack, slot: usize, to: usize) -> Effect
    requires slot { slot < length (slots_of frames.old) }
    requires operands { 2 ≤ length (operands_of frames.old) }
    ensures does { DoesAnywhere heap.old frames.old heap.new frames.new result (i.ForNext slot to) }
    ensures shares { heap.new.shares ≡ heap.old.shares }
{
    let variable = slot_number(heap, frames, slot);
    let step = operand_number(heap, frames, 0);
    match sum_of(variable, step) {
        None => Effect::Raises(ErrorCode::E2),
        Some(sum) => {
            set_number(heap, frames, slot, sum);
            go_to(frames, to);
            Effect::Went
        }
    }
}
