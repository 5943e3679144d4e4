//! The instruction that binds a parameter to a value.
ghost use Rattle.std.specs.Prelude.{◌≡◌, ℕ, ◌<◌, Some, length, slice_get};
ghost use Rattle.brs_code.specs.declared.function.Function.{Function};
ghost use Rattle.brs_code.specs.declared.instr.Instr.TheVariants as i;
ghost use Rattle.frame_stack.specs.Frame.{operands_of, slots_of};
ghost use Rattle.moving_instructions.specs.Behind.{HasPlaceBehind};
ghost use Rattle.instruction_effects.specs.Effects.{Runs, Does};

use crate::taking::take_typed;
use brs_code::Parameter;
use brs_heap::Heap;
use call_release::release_slot;
use chan_values::ErrorCode;
use frame_actions::go_to;
use frame_stack::FrameStack;
use instruction_effects::Effect;
use moving_instructions::place_behind;

/// `Bind` of the parameter that has this number in the function of the innermost call: the last operand, as the type of the parameter takes
/// it, is in the slot of its name. Where the type doesn't take it, the operand alone is gone. Takes no memory.
///
/// Source: BrightScript Language Reference, "Function()/End Function".
pub fn bind(heap: &mut Heap, frames: &mut FrameStack, parameter: Parameter) -> Effect
    requires operand { 0 < length (operands_of frames.old) }
    requires slot { parameter.slot < length (slots_of frames.old) }
    requires inside { HasPlaceBehind frames.old }
    ensures does { (f : Function) (number line : ℕ) → slice_get f.parameters number ≡ Some parameter → Does (Runs f frames.old) line heap.old frames.old heap.new frames.new result (i.Bind number) }
    ensures shares { heap.new.shares ≡ heap.old.shares }
{
    let next = place_behind(frames);
    match take_typed(heap, frames, parameter.kind) {
        Some(v) => {
            let was = frames.set_slot(parameter.slot, v);
            release_slot(heap, was);
            go_to(frames, next);
            Effect::Went
        }
        None => Effect::Raises(ErrorCode::E2),
    }
}
