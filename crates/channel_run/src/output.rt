//! The output, written whole.
ghost use Rattle.std.specs.Prelude.{◌≡◌, ◌≤◌, ℕ, length, take, IfOk, OnOk, OnErr};
ghost use Rattle.std.specs.Io.KnownBytes.{Appends};
ghost use Rattle.outside.specs.Causes.{CountsFailure, CountsFault};
ghost use Rattle.trace_report.specs.TraceText.{trace_text};
ghost use Rattle.trace_report.specs.ReportText.{report_text};
ghost use Rattle.channel_run.specs.Output.{AppendsPrefix};
ghost use Rattle.channel_run.specs.Refusal.{refusal_line};
ghost use Rattle.channel_run.specs.Written.{good_line};

use chan_values::{FolderFault, NoMemory};
use outside::faults::{Failed, FilesFault};
use outside::refusal::write_fault;
use outside::streams::Sink;
use std::alloc::Global;
use trace_report::{ReportLine, TraceLine, write_report, write_trace};

/// Writes all of the bytes. After an `Err` a front of them was written.
#[tactic(auto, using(crate::proofs::Moves::appends_none, crate::proofs::Moves::appends_more, crate::proofs::Moves::appends_front, crate::proofs::Moves::appends_whole))]
pub(crate) fn write_all<O: Sink>(out: &mut O, bytes: &[u8]) -> Result<(), Failed>
    ensures whole { OnOk result (Appends (O.held out.old) (O.held out.new) bytes.now) }
    ensures front { OnErr result (AppendsPrefix (O.held out.old) (O.held out.new) bytes.now) }
    ensures cause { CountsFailure (O.faults out.old) (O.faults out.new) result }
{
    let mut written = 0;
    while written < bytes.len() {
        written += out.write(&bytes[written..])?;
    }
    Ok(())
}

fn write_bytes<O: Sink>(out: &mut O, bytes: &[u8]) -> Result<(), FilesFault>
    ensures whole { OnOk result (Appends (O.held out.old) (O.held out.new) bytes.now) }
    ensures front { OnErr result (AppendsPrefix (O.held out.old) (O.held out.new) bytes.now) }
    ensures cause { CountsFault (O.faults out.old) (O.faults out.new) result }
{
    match write_all(out, bytes) {
        Ok(()) => Ok(()),
        Err(_) => Err(FilesFault::Failed),
    }
}

/// Writes a line of the transcript. After an `Err` a front of it was written.
pub(crate) fn write_trace_line<O: Sink>(
    alloc: Global,
    line: &TraceLine<'_>,
    out: &mut O,
) -> Result<(), FilesFault>
    ensures whole { OnOk result (Appends (O.held out.old) (O.held out.new) (trace_text line.now)) }
    ensures front { OnErr result (AppendsPrefix (O.held out.old) (O.held out.new) (trace_text line.now)) }
    ensures cause { CountsFault (O.faults out.old) (O.faults out.new) result }
{
    let mut bytes = Vec::new(alloc);
    match write_trace(alloc, line, &mut bytes) {
        Ok(()) => write_bytes(out, bytes.as_slice()),
        Err(_) => Err(FilesFault::NoMemory),
    }
}

/// Writes a line of the report. After an `Err` a front of it was written.
pub(crate) fn write_report_line<O: Sink>(
    alloc: Global,
    line: &ReportLine<'_>,
    out: &mut O,
) -> Result<(), FilesFault>
    ensures whole { OnOk result (Appends (O.held out.old) (O.held out.new) (report_text line.now)) }
    ensures front { OnErr result (AppendsPrefix (O.held out.old) (O.held out.new) (report_text line.now)) }
    ensures cause { CountsFault (O.faults out.old) (O.faults out.new) result }
{
    let mut bytes = Vec::new(alloc);
    match write_report(alloc, line, &mut bytes) {
        Ok(()) => write_bytes(out, bytes.as_slice()),
        Err(_) => Err(FilesFault::NoMemory),
    }
}

fn refusal_line(alloc: Global, fault: &FolderFault) -> Result<Vec<u8>, NoMemory>
    ensures { IfOk result (λ line. line.items ≡ refusal_line fault.now) }
{
    let mut line = Vec::new(alloc);
    write_fault(alloc, fault, &mut line)?;
    match line.push(b'\n') {
        Ok(()) => Ok(line),
        Err(_) => Err(NoMemory),
    }
}

/// Writes the line of a folder with this first fault. After an `Err` a front of it was written.
pub(crate) fn write_refusal<O: Sink>(
    alloc: Global,
    fault: &FolderFault,
    out: &mut O,
) -> Result<(), FilesFault>
    ensures whole { OnOk result (Appends (O.held out.old) (O.held out.new) (refusal_line fault.now)) }
    ensures front { OnErr result (AppendsPrefix (O.held out.old) (O.held out.new) (refusal_line fault.now)) }
    ensures cause { CountsFault (O.faults out.old) (O.faults out.new) result }
{
    match refusal_line(alloc, fault) {
        Ok(line) => write_bytes(out, line.as_slice()),
        Err(_) => Err(FilesFault::NoMemory),
    }
}

/// Writes the line of a folder without a fault. After an `Err` a front of it was written.
pub(crate) fn write_good<O: Sink>(out: &mut O) -> Result<(), Failed>
    ensures whole { OnOk result (Appends (O.held out.old) (O.held out.new) good_line) }
    ensures front { OnErr result (AppendsPrefix (O.held out.old) (O.held out.new) good_line) }
    ensures cause { CountsFailure (O.faults out.old) (O.faults out.new) result }
{
    write_all(out, b"good\n")
}
