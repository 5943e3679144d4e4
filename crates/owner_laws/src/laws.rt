//! The laws of owners.
ghost use Rattle.owner_laws.specs.Isolated.{OtherStepsLeaveNodes};
ghost use Rattle.owner_laws.specs.Owners.{EventOwns, OpeningOwns, StepOwns};

use brs_meaning::laws::nodes_come_from_outside;

/// In each world of a run each place names only nodes that it may name: a node has the owner of its parent and its children; what render
/// holds (fields of its nodes, registrations, focus, messages in ports, jobs of actor 0 and the answer of the begun entry) names nodes of
/// render; and what an actor holds or has posted names nodes of render or its own.
pub fn every_owner()
    ensures opening { OpeningOwns }
    ensures step { StepOwns }
    ensures event { EventOwns }
{
    nodes_come_from_outside();
}

/// A step of another actor than 0 changes none of the nodes that it doesn't own.
pub fn every_other_step_leaves_nodes()
    ensures { OtherStepsLeaveNodes }
{}
