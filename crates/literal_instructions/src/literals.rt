//! Instructions of literals.
ghost use Rattle.std.specs.Prelude.{◌≡◌, ◌+◌, ◌<◌, ◌≤◌, ◌^◌, length, OnOk};
ghost use Rattle.frame_stack.specs.Frame.{operands_of, changed};
ghost use Rattle.frame_actions.specs.Actions.{dropped, pushed, Carries};
ghost use Rattle.brs_code.specs.declared.instr.Instr.TheVariants as i;
ghost use Rattle.actor_meaning.specs.declared.outcome.Outcome.TheVariants.{Went};
ghost use Rattle.actor_meaning.specs.Performed.{Performed};
ghost use Rattle.moving_instructions.specs.Behind.{HasPlaceBehind};
ghost use Rattle.instruction_effects.specs.Effects.{PerformedWhere};
ghost use Rattle.literal_instructions.specs.Literals.{RunsWithKeys};

use crate::arrays::array_of;
use crate::pairs::pairs_of;
use brs_code::Function;
use brs_heap::{Heap, Value};
use chan_values::NoMemory;
use frame_actions::{drop_to, push_value};
use frame_stack::FrameStack;
use moving_instructions::place_behind;

/// Takes so many of the last operands back, puts a value in their place, and leads to a place. After an `Err` the value is gone.
fn replace_operands(
    heap: &mut Heap,
    frames: &mut FrameStack,
    count: usize,
    v: Value,
    place: usize,
) -> Result<(), NoMemory>
    requires there { 0 < length frames.old }
    requires operands { count ≤ length (operands_of frames.old) }
    ensures ok { OnOk result (frames.new ≡ changed (pushed v place) (changed (dropped count place) frames.old)) }
    ensures carries { Carries heap.old frames.old heap.new (changed (dropped count place) frames.old) }
    ensures shares { heap.new.shares ≡ heap.old.shares }
{
    drop_to(heap, frames, count, place);
    push_value(frames, v, place)
}

/// `MakeArray`. After an `Err` the actor has no further step.
///
/// Source: BrightScript Language Reference, "Array Literals".
pub fn make_array(heap: &mut Heap, frames: &mut FrameStack, count: usize) -> Result<(), NoMemory>
    requires shares { 2 ^ 20 ≤ heap.old.shares }
    requires there { 0 < length frames.old }
    requires operands { count ≤ length (operands_of frames.old) }
    requires inside { HasPlaceBehind frames.old }
    ensures ok { OnOk result (Performed heap.old frames.old heap.new frames.new Went (i.MakeArray count)) }
    ensures shares { heap.old.shares ≤ heap.new.shares + 2 ^ 20 }
{
    let next = place_behind(frames);
    let array = array_of(heap, frames.last(count))?;
    replace_operands(heap, frames, count, array, next)
}

/// `MakePairs`, in a call of this function, whose keys are folded. After an `Err` the actor has no further step.
///
/// Source: BrightScript Language Reference, "Associative Array Literals".
pub fn make_pairs(
    heap: &mut Heap,
    frames: &mut FrameStack,
    function: &Function,
    key: usize,
    count: usize,
) -> Result<(), NoMemory>
    requires shares { 2 ^ 20 ≤ heap.old.shares }
    requires keys { key + count ≤ length function.now.texts }
    requires there { 0 < length frames.old }
    requires operands { count ≤ length (operands_of frames.old) }
    requires inside { HasPlaceBehind frames.old }
    ensures ok { OnOk result (PerformedWhere (RunsWithKeys key count function.now frames.old) heap.old frames.old heap.new frames.new Went (i.MakePairs key count)) }
    ensures shares { heap.old.shares ≤ heap.new.shares + 2 ^ 20 }
{
    let next = place_behind(frames);
    let keys = &function.texts.as_slice()[key..key + count];
    let pairs = pairs_of(heap, keys, frames.last(count))?;
    replace_operands(heap, frames, count, pairs, next)
}
