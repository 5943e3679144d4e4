//! The lines of a transcript.
ghost use Rattle.std.specs.Prelude.{◌≡◌, ◌++◌, IfOk, OnOk, OnErr};
ghost use Rattle.trace_report.specs.TraceText.{trace_text, reason_word};

use crate::entry::EntryName;
use crate::escapes::escaped;
use crate::key_visit::key_visit_line;
use crate::observer::{Observer, observer_text};
use chan_values::{EndReason, ErrorCode, Key, NoMemory};
use std::alloc::{AllocError, Global};

/// A line of a transcript. Actors, nodes and ports are given by their numbers; texts are given as they are, and escaped where the
/// line is written.
#[derive(Clone, Copy, Debug)]
pub enum TraceLine<'a> {
    /// `a print T`: the actor printed a text.
    Print {
        actor: u32,
        text: &'a str,
    },
    /// `a error k path:line`: an error came in the actor, at a line counted from 1.
    Error {
        actor: u32,
        code: ErrorCode,
        path: &'a str,
        line: u32,
    },
    /// `a post i`: the actor posted its i-th access, counted from 1. A task's last entry counts too.
    Post {
        actor: u32,
        number: u64,
    },
    /// `0 begin E`: the render thread begins an entry.
    Begin(EntryName),
    /// `0 end E`: the render thread is through with an entry.
    End(EntryName),
    /// `0 drop a.i`: an entry of a stopped task is dropped.
    Dropped {
        actor: u32,
        number: u64,
    },
    /// `0 stop a`: the render thread stops a task.
    Stop {
        actor: u32,
    },
    /// `a start node`: a task node's actor starts.
    Start {
        actor: u32,
        node: u32,
    },
    /// `0 notify node.field to`: an observer is told of a change. The field's id is folded.
    Notify {
        node: u32,
        field: &'a str,
        to: Observer<'a>,
    },
    /// `0 key K press node true`: a key visited a node, and whether its handler took it. A released key has `release`.
    KeyVisit {
        key: Key,
        press: bool,
        node: u32,
        handled: bool,
    },
    /// `a ended`: the function of the main actor or of a task returned.
    Ended {
        actor: u32,
    },
    /// `end reason`: the run is over. It is the last line.
    RunEnd(EndReason),
}

fn reason_word(reason: EndReason) -> &'static str
    ensures { result.now ≡ reason_word reason }
{
    match reason {
        EndReason::Main => "main",
        EndReason::Error => "error",
        EndReason::Back => "back",
        EndReason::Steps => "steps",
        EndReason::Script => "script",
        EndReason::Unbuilt => "unbuilt",
    }
}

fn line_bytes(alloc: Global, line: &TraceLine<'_>) -> Result<Vec<u8>, AllocError>
    ensures { IfOk result (λ bytes. bytes.items ≡ trace_text line.now) }
{
    match line {
        TraceLine::Print { actor, text } => {
            let text = escaped(alloc, text)?;
            Ok(format!(in alloc; "{actor} print {}\n", text.as_str())?.into_bytes())
        }
        TraceLine::Error {
            actor,
            code,
            path,
            line,
        } => {
            let number = code.number();
            let path = escaped(alloc, path)?;
            Ok(format!(in alloc; "{actor} error {number} {}:{line}\n", path.as_str())?.into_bytes())
        }
        TraceLine::Post { actor, number } => {
            Ok(format!(in alloc; "{actor} post {number}\n")?.into_bytes())
        }
        TraceLine::Begin(entry) => Ok(format!(in alloc; "0 begin {entry}\n")?.into_bytes()),
        TraceLine::End(entry) => Ok(format!(in alloc; "0 end {entry}\n")?.into_bytes()),
        TraceLine::Dropped { actor, number } => {
            Ok(format!(in alloc; "0 drop {actor}.{number}\n")?.into_bytes())
        }
        TraceLine::Stop { actor } => Ok(format!(in alloc; "0 stop {actor}\n")?.into_bytes()),
        TraceLine::Start { actor, node } => {
            Ok(format!(in alloc; "{actor} start {node}\n")?.into_bytes())
        }
        TraceLine::Notify { node, field, to } => {
            let field = escaped(alloc, field)?;
            let to = observer_text(alloc, to)?;
            Ok(format!(in alloc; "0 notify {node}.{} {to}\n", field.as_str())?.into_bytes())
        }
        TraceLine::KeyVisit {
            key,
            press,
            node,
            handled,
        } => key_visit_line(alloc, *key, *press, *node, *handled),
        TraceLine::Ended { actor } => Ok(format!(in alloc; "{actor} ended\n")?.into_bytes()),
        TraceLine::RunEnd(reason) => {
            Ok(format!(in alloc; "end {}\n", reason_word(*reason))?.into_bytes())
        }
    }
}

/// Writes a line at the end, with the LF that ends it. After an `Err` nothing has changed.
pub fn write_trace(alloc: Global, line: &TraceLine<'_>, out: &mut Vec<u8>) -> Result<(), NoMemory>
    ensures ok { OnOk result (out.new.items ≡ out.old.items ++ trace_text line.now) }
    ensures err { OnErr result (out.new.items ≡ out.old.items) }
{
    let Ok(bytes) = line_bytes(alloc, line) else {
        return Err(NoMemory);
    };
    match out.extend_from_slice(bytes.as_slice()) {
        Ok(()) => Ok(()),
        Err(_) => Err(NoMemory),
    }
}
