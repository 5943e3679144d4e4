//! Instructions of members.
ghost use Rattle.std.specs.Prelude.{◌+◌, ◌<◌, ◌≤◌, length, IfOk};
ghost use Rattle.frame_stack.specs.Frame.{operands_of};
ghost use Rattle.brs_code.specs.declared.instr.Instr.TheVariants as i;
ghost use Rattle.moving_instructions.specs.Behind.{HasPlaceBehind};
ghost use Rattle.instruction_effects.specs.Effects.{Runs, Does};

use crate::settling::settle;
use crate::texts::text_at;
use brs_code::Function;
use brs_heap::Heap;
use chan_values::NoMemory;
use frame_stack::{FrameStack, Landing};
use instruction_effects::Effect;
use member_accesses::{read_member, write_member};
use std::alloc::Global;

/// `Member` in this function, at an instruction of this line. Where it raises an error, the calls are as they were. After an `Err` the actor
/// has no further step.
///
/// Source: BrightScript Language Reference, "Expressions, Variables, and Types": dot operator; SceneGraph, "ifSGNodeField".
pub fn member(
    alloc: Global,
    heap: &mut Heap,
    frames: &mut FrameStack,
    function: &Function,
    n: usize,
    line: u32,
) -> Result<Effect, NoMemory>
    requires shares { 0 < heap.old.shares }
    requires there { 0 < length frames.old }
    requires operand { 1 ≤ length (operands_of frames.old) }
    requires inside { HasPlaceBehind frames.old }
    requires name { n < length function.now.texts }
    ensures ok { IfOk result (λ effect. Does (Runs function.now frames.old) line heap.old frames.old heap.new frames.new effect (i.Member n)) }
    ensures shares { heap.old.shares ≤ heap.new.shares + 1 }
{
    let name = text_at(function, n);
    let reached = read_member(alloc, heap, frames.last(1), name)?;
    settle(heap, frames, reached, 1, Landing::Operands, line)
}

/// `KeepMember` in this function, at an instruction of this line: reads the member for an assignment such as `x.k += 1`, and keeps `x`. Where
/// it raises an error, the calls are as they were. After an `Err` the actor has no further step.
///
/// Source: BrightScript Language Reference, "Operators"; SceneGraph, "ifSGNodeField".
pub fn keep_member(
    alloc: Global,
    heap: &mut Heap,
    frames: &mut FrameStack,
    function: &Function,
    n: usize,
    line: u32,
) -> Result<Effect, NoMemory>
    requires shares { 0 < heap.old.shares }
    requires there { 0 < length frames.old }
    requires operand { 1 ≤ length (operands_of frames.old) }
    requires inside { HasPlaceBehind frames.old }
    requires name { n < length function.now.texts }
    ensures ok { IfOk result (λ effect. Does (Runs function.now frames.old) line heap.old frames.old heap.new frames.new effect (i.KeepMember n)) }
    ensures shares { heap.old.shares ≤ heap.new.shares + 1 }
{
    let name = text_at(function, n);
    let reached = read_member(alloc, heap, frames.last(1), name)?;
    settle(heap, frames, reached, 0, Landing::Operands, line)
}

/// `StoreMember` in this function, at an instruction of this line. Where it raises an error, the calls are as they were. After an `Err` the
/// actor has no further step.
///
/// Source: BrightScript Language Reference, "Expressions, Variables, and Types": dot operator; SceneGraph, "ifSGNodeField".
pub fn store_member(
    alloc: Global,
    heap: &mut Heap,
    frames: &mut FrameStack,
    function: &Function,
    n: usize,
    line: u32,
) -> Result<Effect, NoMemory>
    requires shares { 0 < heap.old.shares }
    requires there { 0 < length frames.old }
    requires operands { 2 ≤ length (operands_of frames.old) }
    requires inside { HasPlaceBehind frames.old }
    requires name { n < length function.now.texts }
    ensures ok { IfOk result (λ effect. Does (Runs function.now frames.old) line heap.old frames.old heap.new frames.new effect (i.StoreMember n)) }
    ensures shares { heap.old.shares ≤ heap.new.shares + 1 }
{
    let name = text_at(function, n);
    let reached = write_member(alloc, heap, frames.last(2), name)?;
    settle(heap, frames, reached, 2, Landing::Nowhere, line)
}
