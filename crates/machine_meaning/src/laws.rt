//! Laws of the machine's step.
ghost use Rattle.machine_meaning.specs.Laws.{OneStep};

/// A machine at work has at most one step.
pub fn a_machine_has_at_most_one_step()
    ensures { OneStep }
{}
