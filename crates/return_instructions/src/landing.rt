//! Values that a call waited for.
ghost use Rattle.std.specs.Prelude.{◌≡◌, ◌<◌, length, OnOk, OnErr};
ghost use Rattle.return_instructions.specs.Landed.{Lands, Settles};

use brs_heap::{Heap, Value};
use chan_values::NoMemory;
use frame_stack::{FrameStack, Landing};

/// Gives the innermost call the value that it waited for: on its operands, or nowhere. After an `Err` no call has changed, and the value is
/// gone.
pub fn land(heap: &mut Heap, frames: &mut FrameStack, v: Value) -> Result<(), NoMemory>
    requires { 0 < length frames.old }
    ensures lands { OnOk result (Lands v frames.old frames.new) }
    ensures settles { OnOk result (Settles v heap.old frames.old heap.new frames.new) }
    ensures err { OnErr result (frames.new ≡ frames.old) }
    ensures shares { heap.new.shares ≡ heap.old.shares }
{
    let head = frames.head();
    match head.landing {
        Landing::Operands => frames.push(v),
        Landing::Nowhere => {
            heap.release(v);
            Ok(())
        }
    }
}
