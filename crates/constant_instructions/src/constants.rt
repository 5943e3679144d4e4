//! Instructions of texts and of anonymous functions.
ghost use Rattle.std.specs.Prelude.{◌≡◌, ◌+◌, ◌<◌, ◌^◌, length, Some, slice_get, IfOk, OnOk, OnErr};
ghost use Rattle.heap_meaning.specs.Heap.{Heap as Shown};
ghost use Rattle.brs_code.specs.declared.instr.Instr.TheVariants as i;
ghost use Rattle.actor_meaning.specs.declared.outcome.Outcome.TheVariants.{Went};
ghost use Rattle.moving_instructions.specs.Behind.{HasPlaceBehind};
ghost use Rattle.instruction_effects.specs.Effects.{Runs, PerformedWhere};
ghost use Rattle.constant_instructions.specs.Reading.{RunsBehind};

use brs_code::Function;
use brs_heap::{Heap, Plain, Value};
use chan_values::{NoMemory, Text, copy_text};
use frame_actions::push_value;
use frame_stack::FrameStack;
use moving_instructions::place_behind;
use std::alloc::Global;

/// The text of an index.
fn text_at(alloc: Global, function: &Function, n: usize) -> Result<Text, NoMemory>
    requires { n < length function.now.texts }
    ensures { IfOk result (λ text. slice_get function.now.texts n ≡ Some text) }
{
    match function.texts.get(n) {
        Some(text) => copy_text(alloc, text),
        None => unreachable!(),
    }
}

/// `Text`, in a call of this function. After an `Err` no call has changed.
pub fn push_text(
    alloc: Global,
    heap: &mut Heap,
    frames: &mut FrameStack,
    function: &Function,
    n: usize,
) -> Result<(), NoMemory>
    requires text { n < length function.now.texts }
    requires there { 0 < length frames.old }
    requires inside { HasPlaceBehind frames.old }
    ensures ok { OnOk result (PerformedWhere (Runs function.now frames.old) heap.old frames.old heap.new frames.new Went (i.Text n)) }
    ensures err { OnErr result (frames.new ≡ frames.old) }
    ensures shares { heap.new.shares ≡ heap.old.shares }
{
    let next = place_behind(frames);
    let text = text_at(alloc, function, n)?;
    let v = heap.make_text(text)?;
    push_value(frames, v, next)
}

/// `Function`, in a call of this function, in a code with so many named functions. After an `Err` nothing has changed.
pub fn push_function(
    frames: &mut FrameStack,
    function: &Function,
    named: usize,
    n: usize,
) -> Result<(), NoMemory>
    requires number { named + (function.now.first + n) < 2 ^ 32 }
    requires there { 0 < length frames.old }
    requires inside { HasPlaceBehind frames.old }
    ensures ok { OnOk result ((heap : Shown) → PerformedWhere (RunsBehind named function.now frames.old) heap frames.old heap frames.new Went (i.Function n)) }
    ensures err { OnErr result (frames.new ≡ frames.old) }
{
    let next = place_behind(frames);
    let number = named + (function.first + n);
    push_value(frames, Value::plain(Plain::Function(number as u32)), next)
}
