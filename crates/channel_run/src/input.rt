//! The input, read to its end.
ghost use Rattle.std.specs.Prelude.{◌≡◌, ℕ, ◌+◌, ◌^◌, ◌<◌, true, false, length, IfOk};
ghost use Rattle.std.specs.Option.{ForSome};
ghost use Rattle.std.specs.Io.KnownBytes.{IsAtEnd};
ghost use Rattle.outside.specs.Causes.{CountsFault};
ghost use Rattle.channel_run.specs.Input.{Reads};
ghost use Rattle.channel_run.specs.Script.{IsScriptOf};

use crate::script::{LONGEST_LINE, Script, read_lines, unended_after};
use chan_values::Bytes;
use outside::faults::FilesFault;
use outside::streams::Source;
use std::alloc::Global;

/// How many bytes are asked for at once.
const PIECE: usize = 4096;

/// What of the input was read.
#[derive(Drop)]
pub(crate) enum InputRead {
    /// All of it.
    Whole(Bytes),
    /// A front in which a line has more than 16,777,216 bytes.
    LongLine(Bytes),
}

/// Reads the input to its end, or up to a line that is too long.
#[tactic(auto, using(crate::proofs::InputReads::consumes_none, crate::proofs::InputReads::consumes_more, crate::proofs::InputReads::reads_all, crate::proofs::InputReads::reads_long, crate::proofs::InputReads::open_more))]
pub(crate) fn read_input<S: Source>(alloc: Global, input: &mut S) -> Result<InputRead, FilesFault>
    ensures told { IfOk result (λ read. Reads (S.left input.old) (S.left input.new) read) }
    ensures cause { CountsFault (S.faults input.old) (S.faults input.new) result }
{
    let mut bytes = Bytes::new(alloc);
    let mut piece = [0u8; PIECE];
    let mut unended = 0usize;
    for _ in 0..u64::MAX {
        match input.read(&mut piece) {
            Ok(0) => return Ok(InputRead::Whole(bytes)),
            Ok(count) => {
                if bytes.push_slice(&piece[..count]).is_err() {
                    return Err(FilesFault::NoMemory);
                }
                unended = unended_after(unended, &piece[..count]);
                if unended > LONGEST_LINE {
                    return Ok(InputRead::LongLine(bytes));
                }
            }
            Err(_) => return Err(FilesFault::Failed),
        }
    }
    Err(FilesFault::NoMemory)
}

fn script_of(alloc: Global, bytes: &Bytes) -> Result<Script, FilesFault>
    ensures script { IfOk result (λ script. IsScriptOf bytes.now script) }
    ensures counted { IfOk result (λ script. script.has_bad_line ≡ true → length script.events + 1 < 2 ^ 64) }
    ensures cause { (faults : ℕ) → CountsFault faults faults result }
{
    match read_lines(alloc, bytes.as_slice()) {
        Ok(script) => Ok(script),
        Err(_) => Err(FilesFault::NoMemory),
    }
}

/// Reads the script, which is read to its end where it has no bad line.
#[tactic(auto, using(crate::proofs::InputReads::script_told, crate::proofs::InputReads::long_script_told, crate::proofs::InputReads::long_is_bad))]
pub(crate) fn read_script<S: Source>(alloc: Global, input: &mut S) -> Result<Script, FilesFault>
    ensures told { IfOk result (λ script. ForSome (S.left input.old) (λ bytes. IsScriptOf bytes script)) }
    ensures counted { IfOk result (λ script. script.has_bad_line ≡ true → length script.events + 1 < 2 ^ 64) }
    ensures end { IfOk result (λ script. script.has_bad_line ≡ false → IsAtEnd (S.left input.new)) }
    ensures cause { CountsFault (S.faults input.old) (S.faults input.new) result }
{
    match read_input(alloc, input) {
        Ok(InputRead::Whole(bytes)) => script_of(alloc, &bytes),
        Ok(InputRead::LongLine(bytes)) => script_of(alloc, &bytes),
        Err(fault) => Err(fault),
    }
}
