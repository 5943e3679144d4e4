//! Instructions of plain values.
ghost use Rattle.std.specs.Prelude.{◌≡◌, ◌<◌, length, OnOk, OnErr};
ghost use Rattle.heap_meaning.specs.Heap.{Heap as Shown};
ghost use Rattle.brs_code.specs.declared.instr.Instr.TheVariants as i;
ghost use Rattle.actor_meaning.specs.declared.outcome.Outcome.TheVariants.{Went};
ghost use Rattle.actor_meaning.specs.Performed.{Performed};
ghost use Rattle.moving_instructions.specs.Behind.{HasPlaceBehind};
ghost use Rattle.moving_instructions.specs.Choices.{PushesPlain};

use crate::places::place_behind;
use brs_heap::{Plain, Value};
use chan_values::NoMemory;
use frame_actions::push_value;
use frame_stack::FrameStack;

/// Puts a plain value on the operands, and leads to the next instruction. After an `Err` nothing has changed.
fn push_plain(frames: &mut FrameStack, plain: Plain) -> Result<(), NoMemory>
    requires there { 0 < length frames.old }
    requires inside { HasPlaceBehind frames.old }
    ensures ok { OnOk result (PushesPlain plain frames.old frames.new) }
    ensures err { OnErr result (frames.new ≡ frames.old) }
{
    let next = place_behind(frames);
    push_value(frames, Value::plain(plain), next)
}

/// `Invalid`. After an `Err` nothing has changed.
pub fn push_invalid(frames: &mut FrameStack) -> Result<(), NoMemory>
    requires there { 0 < length frames.old }
    requires inside { HasPlaceBehind frames.old }
    ensures ok { OnOk result ((heap : Shown) → Performed heap frames.old heap frames.new Went i.Invalid) }
    ensures err { OnErr result (frames.new ≡ frames.old) }
{
    push_plain(frames, Plain::Invalid)
}

/// `Truth`. After an `Err` nothing has changed.
pub fn push_truth(frames: &mut FrameStack, b: bool) -> Result<(), NoMemory>
    requires there { 0 < length frames.old }
    requires inside { HasPlaceBehind frames.old }
    ensures ok { OnOk result ((heap : Shown) → Performed heap frames.old heap frames.new Went (i.Truth b)) }
    ensures err { OnErr result (frames.new ≡ frames.old) }
{
    push_plain(frames, Plain::Truth(b))
}

/// `Integer`. After an `Err` nothing has changed.
pub fn push_integer(frames: &mut FrameStack, n: i32) -> Result<(), NoMemory>
    requires there { 0 < length frames.old }
    requires inside { HasPlaceBehind frames.old }
    ensures ok { OnOk result ((heap : Shown) → Performed heap frames.old heap frames.new Went (i.Integer n)) }
    ensures err { OnErr result (frames.new ≡ frames.old) }
{
    push_plain(frames, Plain::Small(n))
}

/// `LongInteger`. After an `Err` nothing has changed.
pub fn push_long_integer(frames: &mut FrameStack, n: i64) -> Result<(), NoMemory>
    requires there { 0 < length frames.old }
    requires inside { HasPlaceBehind frames.old }
    ensures ok { OnOk result ((heap : Shown) → Performed heap frames.old heap frames.new Went (i.LongInteger n)) }
    ensures err { OnErr result (frames.new ≡ frames.old) }
{
    push_plain(frames, Plain::Big(n))
}
