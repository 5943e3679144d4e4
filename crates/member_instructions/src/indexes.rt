//! Instructions of indexes.
ghost use Rattle.std.specs.Prelude.{◌+◌, ◌<◌, ◌≤◌, length, IfOk};
ghost use Rattle.frame_stack.specs.Frame.{operands_of};
ghost use Rattle.brs_code.specs.declared.instr.Instr.TheVariants as i;
ghost use Rattle.moving_instructions.specs.Behind.{HasPlaceBehind};
ghost use Rattle.instruction_effects.specs.Effects.{Does, Anywhere};

use crate::settling::settle;
use brs_heap::Heap;
use chan_values::NoMemory;
use frame_stack::{FrameStack, Landing};
use instruction_effects::Effect;
use member_accesses::{read_index, write_index};
use std::alloc::Global;

/// `Index`, at an instruction of this line. Where it raises an error, the calls are as they were. After an `Err` the actor has no further
/// step.
///
/// Source: BrightScript Language Reference, "Expressions, Variables, and Types": array operator; SceneGraph, "ifSGNodeField".
pub fn index(
    alloc: Global,
    heap: &mut Heap,
    frames: &mut FrameStack,
    line: u32,
) -> Result<Effect, NoMemory>
    requires shares { 0 < heap.old.shares }
    requires there { 0 < length frames.old }
    requires operands { 2 ≤ length (operands_of frames.old) }
    requires inside { HasPlaceBehind frames.old }
    ensures ok { IfOk result (λ effect. Does Anywhere line heap.old frames.old heap.new frames.new effect i.Index) }
    ensures shares { heap.old.shares ≤ heap.new.shares + 1 }
{
    let reached = read_index(alloc, heap, frames.last(2))?;
    settle(heap, frames, reached, 2, Landing::Operands, line)
}

/// `KeepIndex`, at an instruction of this line: reads the item for an assignment such as `x[i] += 1`, and keeps `x` and `i`. Where it raises
/// an error, the calls are as they were. After an `Err` the actor has no further step.
///
/// Source: BrightScript Language Reference, "Operators"; SceneGraph, "ifSGNodeField".
pub fn keep_index(
    alloc: Global,
    heap: &mut Heap,
    frames: &mut FrameStack,
    line: u32,
) -> Result<Effect, NoMemory>
    requires shares { 0 < heap.old.shares }
    requires there { 0 < length frames.old }
    requires operands { 2 ≤ length (operands_of frames.old) }
    requires inside { HasPlaceBehind frames.old }
    ensures ok { IfOk result (λ effect. Does Anywhere line heap.old frames.old heap.new frames.new effect i.KeepIndex) }
    ensures shares { heap.old.shares ≤ heap.new.shares + 1 }
{
    let reached = read_index(alloc, heap, frames.last(2))?;
    settle(heap, frames, reached, 0, Landing::Operands, line)
}

/// `StoreIndex`, at an instruction of this line. Where it raises an error, the calls are as they were. After an `Err` the actor has no
/// further step.
///
/// Source: BrightScript Language Reference, "Expressions, Variables, and Types": array operator; SceneGraph, "ifSGNodeField".
pub fn store_index(
    alloc: Global,
    heap: &mut Heap,
    frames: &mut FrameStack,
    line: u32,
) -> Result<Effect, NoMemory>
    requires shares { 0 < heap.old.shares }
    requires there { 0 < length frames.old }
    requires operands { 3 ≤ length (operands_of frames.old) }
    requires inside { HasPlaceBehind frames.old }
    ensures ok { IfOk result (λ effect. Does Anywhere line heap.old frames.old heap.new frames.new effect i.StoreIndex) }
    ensures shares { heap.old.shares ≤ heap.new.shares + 1 }
{
    let reached = write_index(alloc, heap, frames.last(3))?;
    settle(heap, frames, reached, 3, Landing::Nowhere, line)
}
