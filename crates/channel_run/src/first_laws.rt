//! Laws of the meaning of a Main, each as the contract of a function that does nothing.
ghost use Rattle.std.specs.Prelude.{ℕ, ◌≤◌, List, [], IsTrue};
ghost use Rattle.chan_values.specs.declared.event.Event.{Event};
ghost use Rattle.first_form.specs.declared.tree.FirstMain.{FirstMain};
ghost use Rattle.first_form.specs.FirstNames.{names_set};
ghost use Rattle.channel_run.specs.FirstText.{IsLive, run_of};

/// A Main whose lines read only locals that an earlier line set is never stuck: whatever the script and the bound, its actor has
/// ended or has a step.
pub fn first_main_is_never_stuck()
    ensures { (main : FirstMain) (events : List Event) (bound : ℕ) → IsTrue (names_set [] main.lines)
        → IsLive (run_of main events bound).actor }
{}

/// A run makes no more steps than its bound.
pub fn first_run_keeps_its_bound()
    ensures { (main : FirstMain) (events : List Event) (bound : ℕ) → (run_of main events bound).steps ≤ bound }
{}
