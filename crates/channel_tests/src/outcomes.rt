//! Commands over the forms in memory, and how they end.
ghost use Rattle.std.specs.Prelude.{◌≡◌};

use chan_values::{Bytes, Text};
use channel_run::channel_main;
use outside::calls::Calls;
use outside::door::{Door, DoorState};
use outside::files::{FileBytes, Files};
use outside::memory_door::MemoryDoor;
use outside::memory_files::MemoryFiles;
use outside::memory_streams::{MemorySink, MemorySource};
use outside::status::Status;
use outside::streams::{Sink, Source};
use std::alloc::Global;
use std::test::Fail;
use std::thread::Threads;

/// A file: its whole path, and its text.
pub(crate) type Row<'a> = (&'a str, &'a str);

/// The manifest of a folder `F`.
pub(crate) const MANIFEST: Row<'static> = ("F/manifest", "title=a\n");

/// How a command ended: its exit status and text, what the sink holds, and the calls made on the files, the input and the sink.
#[derive(Drop)]
pub(crate) struct Outcome {
    pub status: u8,
    pub text: String,
    pub written: Bytes,
    pub calls: (u64, u64, u64),
}

/// The calls that are to fail on the files, the input and the sink.
#[derive(Clone, Copy)]
pub(crate) struct Failing {
    pub files: Option<u64>,
    pub input: Option<u64>,
    pub sink: Option<u64>,
}

pub(crate) const NONE: Failing = Failing {
    files: None,
    input: None,
    sink: None,
};

fn calls(alloc: Global, failing: Option<u64>) -> Result<Calls, Fail> {
    let mut numbers = Vec::new(alloc);
    if let Some(number) = failing {
        numbers.push(number)?;
    }
    Ok(Calls::new(numbers))
}

fn bytes_of(alloc: Global, piece: &str) -> Result<Bytes, Fail> {
    let mut bytes = Bytes::new(alloc);
    bytes.push_slice(piece.as_bytes())?;
    Ok(bytes)
}

/// The words of a command, which are written with `|` between them.
fn words_of(alloc: Global, command: &str) -> Result<Vec<String>, Fail> {
    let mut words = Vec::new(alloc);
    if !command.is_empty() {
        for word in command.split('|') {
            words.push(String::from_str(alloc, word)?)?;
        }
    }
    Ok(words)
}

/// Adds a file, and answers whether it could be added.
fn add(files: &mut MemoryFiles, path: &str, content: &str) -> Option<bool> {
    let mut file = FileBytes {
        path: Text::new(files.alloc),
        bytes: Bytes::new(files.alloc),
    };
    file.path.push_str(path).ok()?;
    file.bytes.push_slice(content.as_bytes()).ok()?;
    if files.may_push(file.path.as_str()) {
        Some(files.push(file).is_ok())
    } else {
        Some(false)
    }
}

fn folder(alloc: Global, contents: &[Row], failing: Option<u64>) -> Result<MemoryFiles, Fail> {
    let mut files = MemoryFiles::new(alloc, calls(alloc, failing)?);
    for (path, content) in contents {
        if add(&mut files, path, content) != Some(true) {
            return Err("a file could not be added")?;
        }
    }
    Ok(files)
}

// The call without its clauses, which say no more about an outcome than what is compared.
fn status_of<R: Threads, F: Files, S: Source, O: Sink, D: Door>(
    rt: &R,
    alloc: Global,
    words: &Vec<String>,
    files: &mut F,
    input: &mut S,
    out: &mut O,
    door: &mut D,
) -> Status
    requires { D.state door.old ≡ DoorState.Closed }
{
    channel_main(rt, alloc, words, files, input, out, door)
}

pub(crate) fn outcome_of<R: Threads>(
    rt: &R,
    alloc: Global,
    words: &str,
    contents: &[Row],
    script: &str,
    failing: Failing,
) -> Result<Outcome, Fail> {
    let spelled = words_of(alloc, words)?;
    let mut files = folder(alloc, contents, failing.files)?;
    let mut input = MemorySource::new(bytes_of(alloc, script)?, calls(alloc, failing.input)?);
    let mut out = MemorySink::new(alloc, calls(alloc, failing.sink)?);
    let mut door = MemoryDoor::new(alloc, calls(alloc, None)?, calls(alloc, None)?);
    let status = status_of(
        rt, alloc, &spelled, &mut files, &mut input, &mut out, &mut door,
    );
    Ok(Outcome {
        status: status.exit_code(),
        text: status.to_string(alloc)?,
        written: out.bytes,
        calls: (files.calls.made, input.calls.made, out.calls.made),
    })
}

/// Whether a command in which no call fails ends with this exit status and text, and the sink then holds this.
pub(crate) fn comes_to<R: Threads>(
    rt: &R,
    alloc: Global,
    words: &str,
    contents: &[Row],
    script: &str,
    want: (u8, &str, &str),
) -> Result<bool, Fail> {
    let outcome = outcome_of(rt, alloc, words, contents, script, NONE)?;
    let (status, text, written) = want;
    Ok(
        outcome.status == status
            && outcome.text.as_str() == text
            && outcome.written.as_slice() == written.as_bytes(),
    )
}

/// Whether a command ends with this exit status, the sink then holds this, and so many calls were made on the files, the input
/// and the sink.
pub(crate) fn makes_calls<R: Threads>(
    rt: &R,
    alloc: Global,
    words: &str,
    contents: &[Row],
    failing: Failing,
    want: (u8, &str, (u64, u64, u64)),
) -> Result<bool, Fail> {
    let outcome = outcome_of(rt, alloc, words, contents, "turn 1 100\n", failing)?;
    let (status, written, calls) = want;
    Ok(
        outcome.status == status
            && outcome.written.as_slice() == written.as_bytes()
            && outcome.calls == calls,
    )
}
