//! Conditions.
ghost use Rattle.std.specs.Prelude.{◌≡◌, ◌<◌, length};
ghost use Rattle.frame_stack.specs.Frame.{operands_of, changed, without_operands};
ghost use Rattle.frame_actions.specs.Actions.{last_value, truth_in, truth_of, Carries};

use crate::operands::take_value;
use brs_heap::{Heap, Plain};
use frame_stack::FrameStack;

/// The Boolean that a plain value is.
fn truth(plain: Option<Plain>) -> Option<bool>
    ensures { result ≡ truth_in plain }
{
    match plain {
        Some(Plain::Truth(b)) => Some(b),
        _ => None,
    }
}

/// Takes the last operand out: the Boolean that it is, `None` exactly where it is none. Takes no memory.
pub fn take_truth(heap: &mut Heap, frames: &mut FrameStack) -> Option<bool>
    requires { 0 < length (operands_of frames.old) }
    ensures truth { result ≡ truth_of (last_value (operands_of frames.old)) }
    ensures frames { frames.new ≡ changed (without_operands 1) frames.old }
    ensures carries { Carries heap.old frames.old heap.new frames.new }
    ensures shares { heap.new.shares ≡ heap.old.shares }
{
    let v = take_value(heap, frames);
    let plain = heap.plain(&v);
    heap.release(v);
    truth(plain)
}
