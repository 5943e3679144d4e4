//! The laws between machine and tree.
ghost use Rattle.machine_match.specs.Laws.{StepIsReduction, NeverStuck, ReplyStands, CallOnTopStands, SameIdle, SameWork, SamePlace, SameHome, SameWait, SameOutcomes};

/// A step of a machine is the reduction of the tree for which it stands: it shows the same text, error with its place, request or value,
/// leaves the same store, and stands for the tree after it.
pub fn a_step_is_a_reduction()
    ensures { StepIsReduction }
{}

/// A machine that stands for a tree at work has a step, so valid code is never stuck.
pub fn what_stands_is_never_stuck()
    ensures { NeverStuck }
{}

/// An answer to an open want, a value, a message or an error that is handed back, keeps what stands.
pub fn an_answer_keeps_what_stands()
    ensures { ReplyStands }
{}

/// A call that is put on top keeps what stands; one that can't begin is refused with the error of the tree.
pub fn a_call_on_top_keeps_what_stands()
    ensures { CallOnTopStands }
{}

/// Whether it is idle or at work, the place and the home of its open want, and the message that its next step waits for, a machine has in
/// common with the tree.
pub fn both_tell_the_same()
    ensures idle { SameIdle }
    ensures work { SameWork }
    ensures place { SamePlace }
    ensures home { SameHome }
    ensures wait { SameWait }
{}

/// So many steps of a machine show what so many reductions of the tree show, in the same order: steps are counted alike.
pub fn many_steps_are_as_many_reductions()
    ensures { SameOutcomes }
{}
