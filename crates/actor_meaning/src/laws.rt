//! Laws of how an actor is seen, and of what is promised of it.
ghost use Rattle.actor_meaning.specs.Laws.{SeenAlike, PerformedIsStep, HandedBack, RefusedByNumber, EndedByRelease};

/// A naming that agrees on all that an actor holds sees the same machine.
pub fn an_agreeing_naming_sees_the_same()
    ensures { SeenAlike }
{}

/// What the function of the next instruction does is the step.
pub fn what_is_performed_is_the_step()
    ensures { PerformedIsStep }
{}

/// An error that is handed back changes nothing but what the innermost call is about to do.
pub fn an_error_is_handed_back()
    ensures { HandedBack }
{}

/// A wrong number of arguments refuses a call.
pub fn a_wrong_number_of_arguments_is_refused()
    ensures { RefusedByNumber }
{}

/// What was held is taken back at the end.
pub fn what_was_held_is_taken_back()
    ensures { EndedByRelease }
{}
