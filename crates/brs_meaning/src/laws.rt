//! Laws of the step of an actor.
ghost use Rattle.brs_meaning.specs.NodeLaws.{StepNames, AnswerNames, CallOnTopNames};
ghost use Rattle.brs_meaning.specs.Held.{SameStep, NoStep, StepKeeps, ReceivedIn, ReceivedAtEnd, RepliesKeep, PutsKeep};

/// The step at the place where the calls of an actor are held is the step of the whole syntax tree, which replaces the leftmost
/// innermost part whose operands are all values. So a tree has at most one such part.
pub fn one_step_is_the_whole_trees()
    ensures { SameStep }
{}

/// Calls that wait for an answer, and an idle actor, have no step.
pub fn waiting_has_no_step()
    ensures { NoStep }
{}

/// What holds of the trees of every run is kept by each step.
pub fn steps_keep_trees()
    ensures { StepKeeps }
{}

/// An answer stands in the place where it was asked for, or ends the statement that asked.
pub fn answers_stand_where_they_were_asked_for()
    ensures operand { ReceivedIn }
    ensures end { ReceivedAtEnd }
{}

/// What holds of the trees of every run is kept by answers, and by calls that are put on top.
pub fn answers_and_calls_keep_trees()
    ensures answers { RepliesKeep }
    ensures calls { PutsKeep }
{}

/// An actor comes to name a node only by an answer, by a call that is put on top, or because it asks for the global node.
pub fn nodes_come_from_outside()
    ensures step { StepNames }
    ensures answer { AnswerNames }
    ensures call { CallOnTopNames }
{}
