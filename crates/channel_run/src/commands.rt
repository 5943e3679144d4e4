//! The commands `check F` and `run F N`.
ghost use Rattle.std.specs.Prelude.{◌≡◌, ◌≢◌, ◌↔◌, ◌⊎◌, ℕ, IsSome, None, Some, map};
ghost use Rattle.std.specs.String.{string_bytes};
ghost use Rattle.std.specs.Option.{ForSome};
ghost use Rattle.std.specs.Io.KnownBytes.{Appends, IsAtEnd};
ghost use Rattle.outside.specs.Causes.{Stayed};
ghost use Rattle.folder_files.specs.Answers.{ListsAtMost};
ghost use Rattle.folder_files.specs.Below.{files_below};
ghost use Rattle.channel_folder.specs.FolderFaults.{IsFirstFault};
ghost use Rattle.channel_run.specs.Answer.{IsThrough};
ghost use Rattle.channel_run.specs.Command.{Command as Spelled, IsRun, command_of};
ghost use Rattle.channel_run.specs.Output.{AppendsPrefix};
ghost use Rattle.channel_run.specs.Refusal.{refusal_line, refused_for};
ghost use Rattle.channel_run.specs.Status.{Counts, IsCaused};
ghost use Rattle.channel_run.specs.Written.{ForCommand, HasScript, good_line};

use crate::command::{Command, Work, read_words};
use crate::folder::read_channel;
use crate::output::{write_good, write_refusal};
use crate::run::run_folder;
use chan_values::FolderFault;
use channel_folder::one_first_fault;
use folder_files::FolderAnswer;
use outside::door::{Door, DoorState};
use outside::faults::FilesFault;
use outside::files::Files;
use outside::status::Status;
use outside::streams::{Sink, Source};
use std::alloc::Global;
use std::thread::Threads;

/// Refuses a folder for its first fault.
fn refuse<O: Sink>(alloc: Global, fault: FolderFault, out: &mut O) -> Status
    ensures words { result ≢ Status.BadWords }
    ensures read { result ≢ Status.ReadFault }
    ensures cause { (files input : ℕ) → IsCaused result
        (record { files = files; input = input; sink = O.faults out.old })
        (record { files = files; input = input; sink = O.faults out.new }) }
    ensures through { IsThrough result → (result ≡ Status.Refused fault) × Appends (O.held out.old) (O.held out.new) (refusal_line fault) }
    ensures front { AppendsPrefix (O.held out.old) (O.held out.new) (refusal_line fault) }
{
    match write_refusal(alloc, &fault, out) {
        Ok(()) => Status::Refused(fault),
        Err(FilesFault::Failed) => Status::WriteFault,
        Err(FilesFault::NoMemory) => Status::NoMemory,
    }
}

/// Says that a folder has no fault.
fn tell_good<O: Sink>(out: &mut O) -> Status
    ensures words { result ≢ Status.BadWords }
    ensures read { result ≢ Status.ReadFault }
    ensures cause { (files input : ℕ) → IsCaused result
        (record { files = files; input = input; sink = O.faults out.old })
        (record { files = files; input = input; sink = O.faults out.new }) }
    ensures through { IsThrough result → (result ≡ Status.Done) × Appends (O.held out.old) (O.held out.new) good_line }
    ensures front { AppendsPrefix (O.held out.old) (O.held out.new) good_line }
{
    match write_good(out) {
        Ok(()) => Status::Done,
        Err(_) => Status::WriteFault,
    }
}

fn carry_out<R: Threads, F: Files, S: Source, O: Sink>(
    rt: &R,
    alloc: Global,
    command: &Command<'_>,
    files: &mut F,
    input: &mut S,
    out: &mut O,
) -> Status
    ensures words { result ≢ Status.BadWords }
    ensures cause { IsCaused result
        (record { files = F.faults files.old; input = S.faults input.old; sink = O.faults out.old })
        (record { files = F.faults files.new; input = S.faults input.new; sink = O.faults out.new }) }
    ensures through { IsThrough result → ForCommand (record { root = command.now.root.now; work = command.now.work }) (F.map files.old) (S.left input.old)
        (λ answer text. (result ≡ answer) × Appends (O.held out.old) (O.held out.new) text) }
    ensures folder { IsThrough result → ForSome (F.map files.old) (λ m. IsFirstFault (files_below command.now.root.now m) (refused_for result)) }
    ensures script { IsRun command.now.work → IsThrough result → refused_for result ≡ None → ForSome (S.left input.old) HasScript }
    ensures end { IsRun command.now.work → (result ≡ Status.Done) ⊎ (result ≡ Status.NotYet) → IsAtEnd (S.left input.new) }
    ensures unread { (command.now.work ≡ Work.Check) ⊎ IsSome (refused_for result) → input.new ≡ input.old }
    ensures front { ForCommand (record { root = command.now.root.now; work = command.now.work }) (F.map files.old) (S.left input.old)
        (λ answer text. AppendsPrefix (O.held out.old) (O.held out.new) text) }
    ensures nothing { result ≡ Status.ReadFault → out.new ≡ out.old }
    ensures map { F.map files.new ≡ F.map files.old }
    ensures roots { ListsAtMost (F.roots files.old) (F.roots files.new) command.now.root.now }
{
    one_first_fault();
    let listing = match read_channel(rt, alloc, files, command.root) {
        Ok(listing) => listing,
        Err(FolderAnswer::Fault(fault)) => return refuse(alloc, fault, out),
        Err(FolderAnswer::ReadFault) => return Status::ReadFault,
        Err(FolderAnswer::NoMemory) => return Status::NoMemory,
    };
    match command.work {
        Work::Check => tell_good(out),
        Work::Run(bound) => run_folder(alloc, listing.as_slice(), bound, input, out),
    }
}

/// Carries out the command that the words spell. `check F` reads the channel folder F and writes `good`, or the refusal for its first fault. `run F N`
/// writes the same refusal; for a folder without a fault it reads the whole script, makes at most N steps, and writes the transcript, the end line and
/// the report.
///
/// - `BadWords` comes exactly where the words are neither `check F` nor `run F N`: F a text that isn't empty, N a number from 0 to 4,000,000.
/// - `ReadFault` and `WriteFault` come only where a count of the files or the input, or the sink's, rose in this call.
/// - `Refused` comes, where no count rose, exactly where the folder has a fault, with its first. The script isn't read then.
/// - `BadScript` comes, where no count rose and the folder has no fault, exactly where a line is the first that is no script line or has more than
///   16,777,216 bytes, with its number. The sink gets the trace of the lines before it, as far as they are built.
/// - `NotYet` comes, where no count rose, the folder has no fault and no line of the script is bad, exactly where the folder is not of the first form or
///   the script has a key line. For another folder the sink gets nothing; at a key line it gets the trace of the lines before.
/// - `Done` says that the folder has no fault, that a run's input was read to its end, and that the sink got the whole text.
/// - `NoMemory` says that memory ran out, and may come at any point.
///
/// With a fault of reading or writing, or for want of memory, the sink got a front of the text. `rt` is handed to the check of the folder alone, and
/// the door is not used yet.
pub fn channel_main<R: Threads, F: Files, S: Source, O: Sink, D: Door>(
    rt: &R,
    alloc: Global,
    words: &Vec<String>,
    files: &mut F,
    input: &mut S,
    out: &mut O,
    door: &mut D,
) -> Status
    requires closed { D.state door.old ≡ DoorState.Closed }
    ensures bad_words { result ≡ Status.BadWords ↔ (command_of (map string_bytes words.now.items) ≡ None) }
    ensures untouched { result ≡ Status.BadWords → (files.new ≡ files.old) × (input.new ≡ input.old) × (out.new ≡ out.old) }

    ensures cause { IsCaused result
        (record { files = F.faults files.old; input = S.faults input.old; sink = O.faults out.old })
        (record { files = F.faults files.new; input = S.faults input.new; sink = O.faults out.new }) }
    ensures complete { IsSome (command_of (map string_bytes words.now.items)) → Stayed (F.faults files.old) (F.faults files.new)
        → Stayed (S.faults input.old) (S.faults input.new) → Stayed (O.faults out.old) (O.faults out.new)
        → IsThrough result ⊎ (result ≡ Status.NoMemory) }

    // What is answered and written, for the command that the words spell. `Done`, `Refused`, `NotYet` and `BadScript` come where the folder and the
    // script say so, and then the whole text was written.
    ensures through { IsThrough result → ForSome (command_of (map string_bytes words.now.items)) (λ c.
        ForCommand c (F.map files.old) (S.left input.old) (λ answer text.
        (result ≡ answer) × Appends (O.held out.old) (O.held out.new) text)) }
    ensures folder { IsThrough result → ForSome (command_of (map string_bytes words.now.items)) (λ c.
        ForSome (F.map files.old) (λ m. IsFirstFault (files_below c.root m) (refused_for result))) }
    ensures script { IsThrough result → ForSome (command_of (map string_bytes words.now.items)) (λ c.
        IsRun c.work → refused_for result ≡ None → ForSome (S.left input.old) HasScript) }
    ensures front { ForSome (command_of (map string_bytes words.now.items)) (λ c.
        ForCommand c (F.map files.old) (S.left input.old) (λ answer text.
        AppendsPrefix (O.held out.old) (O.held out.new) text)) }
    ensures nothing { result ≡ Status.ReadFault → out.new ≡ out.old }

    // What is left of the input, and what stays as it was.
    ensures end { (result ≡ Status.Done) ⊎ (result ≡ Status.NotYet) → ForSome (command_of (map string_bytes words.now.items)) (λ c.
        IsRun c.work → IsAtEnd (S.left input.new)) }
    ensures unread { ForSome (command_of (map string_bytes words.now.items)) (λ c.
        (c.work ≡ Work.Check) ⊎ IsSome (refused_for result) → input.new ≡ input.old) }
    ensures map { F.map files.new ≡ F.map files.old }
    ensures roots { ForSome (command_of (map string_bytes words.now.items)) (λ c.
        ListsAtMost (F.roots files.old) (F.roots files.new) c.root) }
    ensures door { door.new ≡ door.old }
{
    match read_words(words) {
        Some(command) => carry_out(rt, alloc, &command, files, input, out),
        None => Status::BadWords,
    }
}
