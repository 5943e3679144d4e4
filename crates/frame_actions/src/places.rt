//! The place of the next instruction.
ghost use Rattle.std.specs.Prelude.{◌≡◌, ◌<◌, length};
ghost use Rattle.frame_stack.specs.Frame.{changed};
ghost use Rattle.frame_actions.specs.Actions.{at_place};

use frame_stack::{CallHead, FrameStack};

/// Leads the innermost call to a place of its function. Takes no memory.
pub fn go_to(frames: &mut FrameStack, place: usize)
    requires { 0 < length frames.old }
    ensures { frames.new ≡ changed (at_place place) frames.old }
{
    let head = frames.head();
    frames.set_head(CallHead { place, ..head });
}
