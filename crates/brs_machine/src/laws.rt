//! Laws of what the world is told of an actor.
ghost use Rattle.brs_machine.specs.Told.{IdleAlike, AtWorkAlike, PlaceAlike, HomeAlike};

/// Whether an actor is idle or at work, and the place and the home of its open want, are those of the machine that it is seen as.
pub fn the_world_is_told_of_the_machine()
    ensures idle { IdleAlike }
    ensures at_work { AtWorkAlike }
    ensures place { PlaceAlike }
    ensures home { HomeAlike }
{}
