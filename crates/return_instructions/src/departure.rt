//! A call that ends with a value.
ghost use Rattle.std.specs.Prelude.{◌≡◌, ◌<◌, ◌↔◌, IsTrue, length, IfOk};
ghost use Rattle.heap_meaning.specs.Heap.{Moves, references_of, no_references};
ghost use Rattle.frame_stack.specs.declared.header.CallKind.TheVariants as k;
ghost use Rattle.return_instructions.specs.Departed.{IsRefusal, LeavesActor, Departs};

use crate::landing::land;
use crate::leaving::Leaving;
use brs_copy::{CopyFault, copy_out};
use brs_heap::{Heap, Value};
use call_release::release_call;
use chan_values::{NoMemory, Place};
use frame_stack::{CallKind, FrameStack};
use std::alloc::Global;

/// Whether the value of a call of this kind goes to a call below it, of which these are those that are left.
fn is_received(kind: CallKind, frames: &FrameStack) -> bool
    ensures { IsTrue result ↔ ((kind ≡ k.Inner) × (0 < length frames.now)) }
{
    match kind {
        CallKind::Inner => frames.call_count() > 0,
        CallKind::OnTop => false,
    }
}

/// What a copy that failed is told as, with the place of the instruction.
fn refused(fault: CopyFault, place: Place) -> Result<Leaving, NoMemory>
    ensures { IfOk result (λ left. IsRefusal fault place left) }
{
    match fault {
        CopyFault::TooDeep => Ok(Leaving::TooBig(place)),
        CopyFault::TooLarge => Ok(Leaving::TooBig(place)),
        CopyFault::NoMemory => Err(NoMemory),
    }
}

/// Copies a value out of the actor, and takes it back. The place is that of the instruction, for a value that can't leave.
fn leave_actor(alloc: Global, heap: &mut Heap, v: Value, place: Place) -> Result<Leaving, NoMemory>
    ensures left { IfOk result (λ left. LeavesActor heap.old v place left) }
    ensures moves { Moves heap.old heap.new (references_of v) no_references }
    ensures shares { heap.new.shares ≡ heap.old.shares }
{
    let copied = copy_out(alloc, heap, &v);
    heap.release(v);
    match copied {
        Ok(value) => Ok(Leaving::Returned(value)),
        Err(fault) => refused(fault, place),
    }
}

/// Ends the innermost call with a value, which isn't among what it holds: takes back what it held, and hands the value to the call below
/// it, or to the world. The line is that of the instruction.
pub(crate) fn leave(
    alloc: Global,
    heap: &mut Heap,
    frames: &mut FrameStack,
    v: Value,
    line: u32,
) -> Result<Leaving, NoMemory>
    requires { 0 < length frames.old }
    ensures departs { IfOk result (λ left. Departs v line heap.old frames.old heap.new frames.new left) }
    ensures shares { heap.new.shares ≡ heap.old.shares }
{
    let head = frames.head();
    release_call(heap, frames);
    if is_received(head.kind, frames) {
        land(heap, frames, v)?;
        Ok(Leaving::Went)
    } else {
        let place = Place {
            path: head.path,
            line,
        };
        leave_actor(alloc, heap, v, place)
    }
}
