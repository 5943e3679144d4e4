//! Laws of each step and each event.
ghost use Rattle.step_laws.specs.Counts.{EventCounts, OpeningCounts, StepCounts};
ghost use Rattle.step_laws.specs.Isolation.{EveryOtherStep};
ghost use Rattle.step_laws.specs.Owners.{EventOwners, StepOwners};

/// In no world of a run there are more nodes, ports or actors than there may be, no actor has made more posts than steps were made, and no
/// more keys have come than events. So none of these numbers overflows.
pub fn every_count()
    ensures opening { OpeningCounts }
    ensures step { StepCounts }
    ensures event { EventCounts }
{}

/// A step of another actor than 0 leaves actor 0 in place, with all that it has to do, and the registrations and the focus; and where it
/// posts, it changes no node at all.
pub fn every_other_step()
    ensures { EveryOtherStep }
{}

/// The owner of a node changes only to render, and no node is taken away.
pub fn every_owner_stays()
    ensures step { StepOwners }
    ensures event { EventOwners }
{}
