//! The instruction of a `print`.
ghost use Rattle.std.specs.Prelude.{◌≡◌, ◌+◌, ◌<◌, ◌≤◌, length, take, drop, IfOk, OnErr};
ghost use Rattle.frame_stack.specs.Frame.{operands_of};
ghost use Rattle.brs_code.specs.declared.instr.Instr.TheVariants as i;
ghost use Rattle.instruction_effects.specs.Effects.{Runs};
ghost use Rattle.moving_instructions.specs.Behind.{HasPlaceBehind};
ghost use Rattle.print_instruction.specs.PrintDone.{PrintDone};

use brs_code::{Function, Mark};
use brs_heap::Heap;
use chan_values::NoMemory;
use frame_actions::drop_to;
use frame_stack::FrameStack;
use moving_instructions::place_behind;
use printed_text::{Printing, printed_text};
use std::alloc::Global;

/// So many marks of a function, from the first one on.
fn marks_of(function: &Function, first: usize, count: usize) -> &[Mark]
    requires { first + count ≤ length function.now.marks }
    ensures { result.now ≡ take count (drop first function.now.marks) }
{
    &function.marks.as_slice()[first..first + count]
}

/// `Print` in a call of the function: with the marks from the first one on, as many as `count` says, of the last operands, as many as
/// `values` says. It answers the text, or the error that it raises, and then the calls are as they were. After an `Err` nothing has changed.
///
/// Source: BrightScript Language Reference, "PRINT".
pub fn print(
    alloc: Global,
    heap: &mut Heap,
    frames: &mut FrameStack,
    function: &Function,
    first: usize,
    count: usize,
    values: usize,
) -> Result<Printing, NoMemory>
    requires there { 0 < length frames.old }
    requires marks { first + count ≤ length function.now.marks }
    requires operands { values ≤ length (operands_of frames.old) }
    requires inside { HasPlaceBehind frames.old }
    ensures ok { IfOk result (λ printing. PrintDone (Runs function.now frames.old) heap.old frames.old heap.new frames.new printing (i.Print first count values)) }
    ensures err { OnErr result ((heap.new ≡ heap.old) × (frames.new ≡ frames.old)) }
    ensures shares { heap.new.shares ≡ heap.old.shares }
{
    let next = place_behind(frames);
    let marks = marks_of(function, first, count);
    let printing = printed_text(alloc, heap, marks, frames.last(values))?;
    match printing {
        Printing::Raises(error) => Ok(Printing::Raises(error)),
        Printing::Printed(text) => {
            drop_to(heap, frames, values, next);
            Ok(Printing::Printed(text))
        }
    }
}
