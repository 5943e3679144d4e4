//! What becomes of the innermost call once its access is made.
ghost use Rattle.std.specs.Prelude.{◌≡◌, ◌<◌, ◌≤◌, length, IfOk, OnOk};
ghost use Rattle.frame_stack.specs.Frame.{operands_of, changed};
ghost use Rattle.moving_instructions.specs.Behind.{HasPlaceBehind};
ghost use Rattle.member_instructions.specs.Settling.{landed, waits, TakesIn, Settles};

use actor_meaning::Request;
use brs_heap::{Heap, Value};
use chan_values::NoMemory;
use frame_actions::{drop_to, push_value};
use frame_stack::{CallHead, FrameStack, Landing};
use instruction_effects::Effect;
use member_accesses::Reached;
use moving_instructions::place_behind;
use object_operations::Applied;

/// Puts a value on the operands, or takes it back where it lands nowhere.
fn land(
    heap: &mut Heap,
    frames: &mut FrameStack,
    v: Value,
    landing: Landing,
    place: usize,
) -> Result<(), NoMemory>
    requires there { 0 < length frames.old }
    ensures frames { OnOk result (frames.new ≡ changed (landed landing v place) frames.old) }
    ensures takes { OnOk result (TakesIn v heap.old frames.old heap.new frames.new) }
    ensures shares { heap.new.shares ≡ heap.old.shares }
{
    match landing {
        Landing::Operands => push_value(frames, v, place),
        Landing::Nowhere => {
            heap.release(v);
            Ok(())
        }
    }
}

/// The innermost call waits for a value, at an instruction of this line. Takes no memory.
fn wait(frames: &mut FrameStack, landing: Landing, line: u32)
    requires { 0 < length frames.old }
    ensures { frames.new ≡ changed (waits landing line) frames.old }
{
    let head = frames.head();
    frames.set_head(CallHead {
        line,
        landing,
        ..head
    });
}

/// Takes so many operands back and leads to the next instruction, with the value where it lands, or with an open want for it. An error
/// leaves the calls as they were.
pub fn settle(
    heap: &mut Heap,
    frames: &mut FrameStack,
    reached: Reached,
    taken: usize,
    landing: Landing,
    line: u32,
) -> Result<Effect, NoMemory>
    requires there { 0 < length frames.old }
    requires operands { taken ≤ length (operands_of frames.old) }
    requires inside { HasPlaceBehind frames.old }
    ensures settles { IfOk result (λ effect. Settles landing line taken reached effect heap.old frames.old heap.new frames.new) }
    ensures shares { heap.new.shares ≡ heap.old.shares }
{
    let next = place_behind(frames);
    match reached {
        Reached::Done(Applied::Raised(error)) => Ok(Effect::Raises(error)),
        Reached::Done(Applied::Value(v)) => {
            drop_to(heap, frames, taken, next);
            land(heap, frames, v, landing, next)?;
            Ok(Effect::Went)
        }
        Reached::Asks(access) => {
            drop_to(heap, frames, taken, next);
            wait(frames, landing, line);
            Ok(Effect::Asks(Request::Access(access)))
        }
    }
}
