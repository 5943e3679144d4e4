//! How a command ended.

use chan_values::FolderFault;
use std::fmt;

/// How a command ended. Its text is what the program prints about it on standard error, and is empty where that is nothing.
#[derive(Debug, Drop)]
pub enum Status {
    /// The input was read to its end, or the command is through.
    Done,
    /// The channel's folder has this fault, its first.
    Refused(FolderFault),
    /// The channel ended by an error.
    ChannelError,
    /// This line, counted from 1, is the first that is no script line.
    BadScript(u64),
    /// The files or the input failed.
    ReadFault,
    /// The sink failed.
    WriteFault,
    /// The door failed to listen or to accept.
    DoorFault,
    /// The words are no command.
    BadWords,
    /// Memory ran out.
    NoMemory,
    /// The command asks for what is not built yet.
    NotYet,
}

impl Status {
    ghost use Rattle.std.specs.Prelude.{◌≡◌};
    ghost use Rattle.outside.specs.Status.{exit_number};

    /// The program's exit status.
    pub fn exit_code(&self) -> u8
        ensures { result ≡ exit_number self.now }
    {
        match self {
            Status::Done => 0,
            Status::Refused(_) => 1,
            Status::ChannelError => 2,
            Status::BadScript(_) => 3,
            Status::ReadFault => 4,
            Status::WriteFault => 5,
            Status::DoorFault => 6,
            Status::BadWords => 7,
            Status::NoMemory => 8,
            Status::NotYet => 9,
        }
    }
}

impl fmt::Display for Status {
    ghost use Rattle.std.specs.Prelude.{Some};
    ghost use Rattle.outside.specs.Status.{status_text};

    ghost output = { λ s. Some (status_text s) };

    fn fmt<W: fmt::Write>(&self, f: &mut fmt::Formatter<W>) -> fmt::Result {
        match self {
            Status::Done | Status::Refused(_) | Status::ChannelError => Ok(()),
            Status::BadScript(line) => write!(f, "bad script line {line}"),
            Status::ReadFault => write!(f, "read fault"),
            Status::WriteFault => write!(f, "write fault"),
            Status::DoorFault => write!(f, "door fault"),
            Status::BadWords => write!(f, "usage: check F | run F N"),
            Status::NoMemory => write!(f, "no memory"),
            Status::NotYet => write!(f, "not yet"),
        }
    }
}
