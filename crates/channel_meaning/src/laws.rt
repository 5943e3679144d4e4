//! Laws of runs.
ghost use Rattle.std.specs.Prelude.{◌≡◌, ◌≤◌, ℕ, List, ◌++◌, Some};
ghost use Rattle.chan_values.specs.declared.end_reason.EndReason.{EndReason as Reason};
ghost use Rattle.chan_values.specs.declared.event.Event.{Event as One};
ghost use Rattle.world_meaning.specs.Channel.{Channel};
ghost use Rattle.channel_meaning.specs.World.{World, turn, happens, run};
ghost use Rattle.channel_meaning.specs.Going.{GoesOn, BeginsWith};
ghost use Rattle.channel_meaning.specs.RunText.{LinesSay, lines_of, trace_bytes, run_text, IsRunText};

/// A turn adds to the trace and to the arrivals, and takes nothing back, and so does each event of a script.
pub fn histories_go_on()
    ensures turn { (ch : Channel) (bound actor n : ℕ) (w : World) → GoesOn w.history (turn ch bound actor n w).history }
    ensures event { (ch : Channel) (bound : ℕ) (event : One) (w : World) → GoesOn w.history (happens ch bound event w).history }
{}

/// No run makes more steps than its bound.
pub fn no_run_passes_its_bound()
    ensures { (ch : Channel) (bound : ℕ) (events : List One) → (run ch bound events).steps ≤ bound }
{}

/// After the end of a run no event changes anything.
pub fn nothing_happens_after_the_end()
    ensures { (ch : Channel) (bound : ℕ) (event : One) (w : World) (reason : Reason) → w.core.ending ≡ Some reason → happens ch bound event w ≡ w }
{}

/// A script whose lines are all good has a text, which begins with the trace of the lines before any of them.
pub fn a_text_begins_with_each_trace_before()
    ensures text { (ch : Channel) (script : List ℕ) (bound : ℕ) (events : List One) → LinesSay (lines_of script) events →
        IsRunText ch script bound (run_text ch (run ch bound events)) }
    ensures front { (ch : Channel) (bound : ℕ) (events more : List One) →
        BeginsWith (run_text ch (run ch bound (events ++ more))) (trace_bytes ch.paths (run ch bound events).history.trace) }
{}
