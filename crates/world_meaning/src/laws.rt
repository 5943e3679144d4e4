//! Laws of the step of the world.
ghost use Rattle.std.specs.Prelude.{◌≡◌, ℕ, is_some};
ghost use Rattle.chan_values.specs.Tree.{Tree};
ghost use Rattle.chan_values.specs.Portable.{KeepsKeys};
ghost use Rattle.chan_values.specs.View.{tree_of};
ghost use Rattle.world_meaning.specs.Channel.{Channel};
ghost use Rattle.world_meaning.specs.Core.{Core};
ghost use Rattle.world_meaning.specs.Portables.{portable_of};
ghost use Rattle.world_meaning.specs.Steps.{step};
ghost use Rattle.world_meaning.specs.CanStep.{can_step};

/// Each actor that can step has exactly one step, and no other has one.
pub fn each_actor_that_can_step_has_one_step()
    ensures { (ch : Channel) (a : ℕ) (c : Core) → is_some (step ch a c) ≡ can_step ch a c }
{}

/// The payload of a message is the value that it was made of.
pub fn messages_hold_their_values()
    ensures { (t : Tree) → KeepsKeys t → tree_of (portable_of t) ≡ t }
{}
