//! Runs a channel folder under a script.
#![tactic(auto)]

mod host_files;
mod host_streams;
mod message;
#[cfg(test)]
mod tests;

ghost use Rattle.std.specs.Prelude.{◌≡◌};
ghost use Rattle.outside.specs.declared.door.DoorState.TheVariants.{Closed};

use channel_run::channel_main;
use host_files::HostFiles;
use host_streams::{StandardInput, StandardOutput};
use message::write_message;
use outside::calls::Calls;
use outside::memory_door::MemoryDoor;
use outside::status::Status;
use std::alloc::Global;
use std::process::ExitCode;
use std::rt::Env;
use std::{env, io};

// The words after the program's name.
fn words_of<R: Env + AllocGlobal>(rt: &R) -> io::Result<Vec<String>> {
    let mut words = Vec::new(rt.alloc());
    for word in env::args(rt)?.skip(1) {
        words.push(word)?;
    }
    Ok(words)
}

// Words that can't be told, such as one that isn't UTF-8, are no command.
fn status_of(error: &io::Error) -> Status {
    if error.kind() == io::ErrorKind::OutOfMemory {
        Status::NoMemory
    } else {
        Status::BadWords
    }
}

// No command opens the door yet.
fn closed_door(alloc: Global) -> MemoryDoor
    ensures { result.state ≡ Closed }
{
    MemoryDoor::new(
        alloc,
        Calls::new(Vec::new(alloc)),
        Calls::new(Vec::new(alloc)),
    )
}

fn main(rt: HostRuntime) -> ExitCode {
    let status = match words_of(&rt) {
        Ok(words) => {
            let mut files = HostFiles::new(rt, rt.alloc());
            let mut input = StandardInput::new(rt.reader());
            let mut out = StandardOutput::new(rt.stdout());
            let mut door = closed_door(rt.alloc());
            channel_main(
                &rt,
                rt.alloc(),
                &words,
                &mut files,
                &mut input,
                &mut out,
                &mut door,
            )
        }
        Err(error) => status_of(&error),
    };
    let _ = write_message(&mut rt.stderr(), &status);
    ExitCode::from(status.exit_code())
}
