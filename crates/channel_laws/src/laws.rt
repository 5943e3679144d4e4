//! The laws of every run, and the rule from which they follow.
ghost use Rattle.channel_laws.specs.Rule.{EveryRun, EveryOpening, EveryStepKeeps, EveryEventKeeps};

/// Of every run: each actor's posts are numbered from 1 and begin in their order, each at most once and after its post, or are dropped
/// once, and at most one is neither ended nor dropped; entries begin in the order in which they came into the inbox, one at a time; of
/// each change those are told, once and in order, who were registered at the change, and all of them where its answer was given; and
/// each notify line is one such delivery; a key visits its handlers in order, up to the first that takes it.
pub fn every_run()
    ensures { EveryRun }
{}

/// The rule holds of each opening world.
pub fn every_opening()
    ensures { EveryOpening }
{}

/// Each step keeps the rule.
pub fn every_step_keeps()
    ensures { EveryStepKeeps }
{}

/// Each event keeps the rule.
pub fn every_event_keeps()
    ensures { EveryEventKeeps }
{}
