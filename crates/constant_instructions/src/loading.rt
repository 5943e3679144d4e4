//! The instruction that loads what a name reads as.
ghost use Rattle.std.specs.Prelude.{◌≡◌, ◌+◌, ◌<◌, ◌≤◌, ◌^◌, ℕ, length, None, IfOk, OnErr};
ghost use Rattle.heap_meaning.specs.Heap.{Heap as Shown};
ghost use Rattle.frame_stack.specs.Frame.{slots_of, slot_value};
ghost use Rattle.brs_code.specs.declared.instr.Instr.TheVariants as i;
ghost use Rattle.moving_instructions.specs.Behind.{HasPlaceBehind};
ghost use Rattle.instruction_effects.specs.Effects.{Does};
ghost use Rattle.constant_instructions.specs.Reading.{ReadsNames};

use crate::names::number_named;
use brs_code::{Function, ScopeEntry};
use brs_heap::{Heap, Plain, Value};
use chan_values::{ErrorCode, NoMemory, Text};
use frame_actions::push_value;
use frame_stack::FrameStack;
use instruction_effects::Effect;
use moving_instructions::place_behind;

/// `Load` of a local that is unset, in a call of this function: the function of its name in the scope of the call's home, which has these
/// entries, else the built-in function of that name. Where there is neither it raises E1. So many functions has the code, and behind them
/// the built-in functions are numbered. After an `Err` nothing has changed.
///
/// Source: BrightScript Language Reference, "Variables, literals, and types".
pub fn load_named(
    frames: &mut FrameStack,
    function: &Function,
    entries: &[ScopeEntry],
    built_ins: &[Text],
    functions: usize,
    slot: usize,
) -> Result<Effect, NoMemory>
    requires name { slot < length function.now.names }
    requires unset { slot_value (slots_of frames.old) slot ≡ None }
    requires numbers { functions + length built_ins.now ≤ 2 ^ 32 }
    requires there { 0 < length frames.old }
    requires inside { HasPlaceBehind frames.old }
    ensures ok { IfOk result (λ effect. (heap : Shown) (line : ℕ) → Does (ReadsNames function.now entries.now built_ins.now functions frames.old) line heap frames.old heap frames.new effect (i.Load slot)) }
    ensures err { OnErr result (frames.new ≡ frames.old) }
{
    let next = place_behind(frames);
    let Some(name) = function.names.get(slot) else {
        unreachable!()
    };
    match number_named(entries, built_ins, functions, name.as_slice()) {
        None => Ok(Effect::Raises(ErrorCode::E1)),
        Some(number) => {
            push_value(frames, Value::plain(Plain::Function(number)), next)?;
            Ok(Effect::Went)
        }
    }
}

/// `Load`, in a call of this function: the value of the slot, and where that is unset what `load_named` gives. After an `Err` no call has
/// changed.
///
/// Source: BrightScript Language Reference, "Variables, literals, and types".
pub fn load(
    heap: &mut Heap,
    frames: &mut FrameStack,
    function: &Function,
    entries: &[ScopeEntry],
    built_ins: &[Text],
    functions: usize,
    slot: usize,
) -> Result<Effect, NoMemory>
    requires shares { 0 < heap.old.shares }
    requires slot { slot < length (slots_of frames.old) }
    requires name { slot < length function.now.names }
    requires numbers { functions + length built_ins.now ≤ 2 ^ 32 }
    requires there { 0 < length frames.old }
    requires inside { HasPlaceBehind frames.old }
    ensures ok { IfOk result (λ effect. (line : ℕ) → Does (ReadsNames function.now entries.now built_ins.now functions frames.old) line heap.old frames.old heap.new frames.new effect (i.Load slot)) }
    ensures err { OnErr result (frames.new ≡ frames.old) }
    ensures shares { heap.old.shares ≤ heap.new.shares + 1 }
{
    if moving_instructions::load(heap, frames, slot)? {
        return Ok(Effect::Went);
    }
    load_named(frames, function, entries, built_ins, functions, slot)
}
