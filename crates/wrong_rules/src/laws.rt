//! What the laws of runs refuse.
ghost use Rattle.wrong_rules.specs.Wrong.{AccessStaysBreaks, AlongChildrenBreaks, DoneAtPostBreaks, GivenBackBreaks, GoesOnAfterTrueBreaks, NewestFirstBreaks, TakenAtDeliveryBreaks};

/// With each of these rules a law would be false: the newest entry begins first; an access is done at its post; a stopped actor's access
/// stays and begins; observers are taken at the delivery and not at the change; a walk goes on after a handler took the key; a gift goes
/// along children alone; an owner gets a node back that it gave.
pub fn wrong_rules_break_laws()
    ensures newest { NewestFirstBreaks }
    ensures at_post { DoneAtPostBreaks }
    ensures after_stop { AccessStaysBreaks }
    ensures at_delivery { TakenAtDeliveryBreaks }
    ensures after_true { GoesOnAfterTrueBreaks }
    ensures along_children { AlongChildrenBreaks }
    ensures back { GivenBackBreaks }
{}
