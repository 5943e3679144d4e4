//! Operands of the innermost call.
ghost use Rattle.std.specs.Prelude.{◌≡◌, ◌<◌, ◌≤◌, length, OnOk, OnErr};
ghost use Rattle.frame_stack.specs.Frame.{operands_of, changed, without_operands};
ghost use Rattle.frame_actions.specs.Actions.{dropped, pushed, last_value, Carries, Hands};

use crate::places::go_to;
use brs_heap::{Heap, Plain, Value};
use call_release::{drop_operands, release_operand};
use chan_values::NoMemory;
use frame_stack::{FrameStack, Operand};

/// Takes so many of the last operands away, and leads to a place. Takes no memory.
pub fn drop_to(heap: &mut Heap, frames: &mut FrameStack, n: usize, place: usize)
    requires there { 0 < length frames.old }
    requires operands { n ≤ length (operands_of frames.old) }
    ensures frames { frames.new ≡ changed (dropped n place) frames.old }
    ensures carries { Carries heap.old frames.old heap.new frames.new }
    ensures shares { heap.new.shares ≡ heap.old.shares }
{
    drop_operands(heap, frames, n);
    go_to(frames, place);
}

/// Puts a value on the operands, and leads to a place. After an `Err` no call has changed, and the value is gone.
pub fn push_value(frames: &mut FrameStack, v: Value, place: usize) -> Result<(), NoMemory>
    requires { 0 < length frames.old }
    ensures ok { OnOk result (frames.new ≡ changed (pushed v place) frames.old) }
    ensures err { OnErr result (frames.new ≡ frames.old) }
{
    frames.push(v)?;
    go_to(frames, place);
    Ok(())
}

/// Takes the last operand out. What a `for each` goes over is taken back, and `invalid` stands for it. Takes no memory.
pub fn take_value(heap: &mut Heap, frames: &mut FrameStack) -> Value
    requires { 0 < length (operands_of frames.old) }
    ensures value { result ≡ last_value (operands_of frames.old) }
    ensures frames { frames.new ≡ changed (without_operands 1) frames.old }
    ensures hands { Hands heap.old frames.old heap.new frames.new result }
    ensures shares { heap.new.shares ≡ heap.old.shares }
{
    match frames.pop() {
        Operand::Value(v) => v,
        Operand::Each(each) => {
            release_operand(heap, Operand::Each(each));
            Value::plain(Plain::Invalid)
        }
    }
}
