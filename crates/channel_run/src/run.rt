//! The run of a channel folder without a fault.
ghost use Rattle.std.specs.Prelude.{◌≡◌, ◌≢◌, ◌⊎◌, ◌+◌, ◌^◌, ◌<◌, ℕ, true, length, [], IfSome, IsTrue, OnOk, None};
ghost use Rattle.std.specs.Option.{ForSome};
ghost use Rattle.std.specs.Io.KnownBytes.{Appends, IsAtEnd};
ghost use Rattle.outside.specs.Causes.{CountsFault};
ghost use Rattle.first_form.specs.FirstNames.{names_set};
ghost use Rattle.channel_run.specs.Answer.{answer_of, run_text, IsThrough};
ghost use Rattle.folder_files.specs.SizeFaults.{first_size_fault};
ghost use Rattle.channel_run.specs.Output.{AppendsPrefix};
ghost use Rattle.channel_run.specs.Refusal.{refused_for};
ghost use Rattle.channel_run.specs.Status.{Counts, IsCaused};
ghost use Rattle.channel_run.specs.Written.{ForGood, HasScript};

use crate::command::Work;
use crate::first_run::run_first;
use crate::folder::first_folder;
use crate::input::read_script;
use crate::script::Script;
use first_form::tree::FirstMain;
use outside::faults::FilesFault;
use outside::files::FileBytes;
use outside::status::Status;
use outside::streams::{Sink, Source};
use std::alloc::Global;

fn answer_of(main: &Option<FirstMain>, script: &Script) -> Status
    requires { script.now.has_bad_line ≡ true → length script.now.events + 1 < 2 ^ 64 }
    ensures { result ≡ answer_of main.now script.now }
{
    if script.has_bad_line {
        return Status::BadScript(script.events.len() as u64 + 1);
    }
    if main.is_some() && !script.has_key() {
        Status::Done
    } else {
        Status::NotYet
    }
}

// Writes the text of a run, which is empty where there is no Main of the first form.
fn write_run<O: Sink>(
    alloc: Global,
    main: &Option<FirstMain>,
    script: &Script,
    bound: u32,
    out: &mut O,
) -> Result<(), FilesFault>
    requires { IfSome main.now (λ m. IsTrue (names_set [] m.lines)) }
    ensures whole { OnOk result (Appends (O.held out.old) (O.held out.new) (run_text main.now script.now bound)) }
    ensures front { AppendsPrefix (O.held out.old) (O.held out.new) (run_text main.now script.now bound) }
    ensures cause { CountsFault (O.faults out.old) (O.faults out.new) result }
{
    match main {
        Some(main) => run_first(alloc, main, script, bound, out),
        None => Ok(()),
    }
}

/// Runs the channel of a folder without a fault: reads the whole script, makes at most so many steps, and writes the transcript.
pub(crate) fn run_folder<S: Source, O: Sink>(
    alloc: Global,
    files: &[FileBytes],
    bound: u32,
    input: &mut S,
    out: &mut O,
) -> Status
    requires sizes { first_size_fault files.now ≡ None }
    ensures words { result ≢ Status.BadWords }
    ensures folder { refused_for result ≡ None }
    ensures cause { (faults : ℕ) → IsCaused result
        (record { files = faults; input = S.faults input.old; sink = O.faults out.old })
        (record { files = faults; input = S.faults input.new; sink = O.faults out.new }) }
    ensures through { IsThrough result → ForGood (Work.Run bound) files.now (S.left input.old) (λ answer text.
        (result ≡ answer) × Appends (O.held out.old) (O.held out.new) text) }
    ensures script { IsThrough result → ForSome (S.left input.old) HasScript }
    ensures end { (result ≡ Status.Done) ⊎ (result ≡ Status.NotYet) → IsAtEnd (S.left input.new) }
    ensures front { ForGood (Work.Run bound) files.now (S.left input.old) (λ answer text.
        AppendsPrefix (O.held out.old) (O.held out.new) text) }
    ensures nothing { result ≡ Status.ReadFault → out.new ≡ out.old }
{
    let Ok(main) = first_folder(alloc, files) else {
        return Status::NoMemory;
    };
    let script = match read_script(alloc, input) {
        Ok(script) => script,
        Err(FilesFault::Failed) => return Status::ReadFault,
        Err(FilesFault::NoMemory) => return Status::NoMemory,
    };
    match write_run(alloc, &main, &script, bound, out) {
        Ok(()) => answer_of(&main, &script),
        Err(FilesFault::Failed) => Status::WriteFault,
        Err(FilesFault::NoMemory) => Status::NoMemory,
    }
}
