//! What is said of a command's end on standard error.

use outside::status::Status;
use std::io;
use std::io::Write;

/// Writes `brsrun: ` and the status's text on a line of its own, or nothing where the status has no text.
pub fn write_message<W: Write>(err: &mut W, status: &Status) -> io::Result<()> {
    match status {
        Status::Done | Status::Refused(_) | Status::ChannelError => Ok(()),
        _ => writeln!(err, "brsrun: {status}"),
    }
}
