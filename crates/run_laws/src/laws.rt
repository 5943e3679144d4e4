//! The laws of every run, gathered.
ghost use Rattle.run_laws.specs.LawsOfRun.{EveryRunHasLaws};

use channel_laws::laws::{every_event_keeps, every_opening, every_run};
use channel_meaning::laws::{histories_go_on, no_run_passes_its_bound};
use owner_laws::laws::{every_other_step_leaves_nodes, every_owner};
use step_laws::laws::{every_count, every_other_step, every_owner_stays};

/// Every run meets all laws. At each world that it passes: those of its history (posts, drops, entries, deliveries and key walks), of the
/// inbox, of owners and of the numbers of things, and that a step of another actor leaves actor 0 and the nodes of others in place. From
/// each world that it passes to each later one nothing that was recorded is taken back, and owners change only to render. It makes no
/// more steps than its bound.
pub fn laws_of_run()
    ensures { EveryRunHasLaws }
{
    every_run();
    every_opening();
    every_event_keeps();
    histories_go_on();
    no_run_passes_its_bound();
    every_count();
    every_other_step();
    every_owner_stays();
    every_owner();
    every_other_step_leaves_nodes();
}
