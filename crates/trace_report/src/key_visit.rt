//! The line of a key's visit to a node.
ghost use Rattle.std.specs.Prelude.{◌≡◌, IfOk};
ghost use Rattle.chan_values.specs.declared.event.Event.TheVariants as event;
ghost use Rattle.script_text.specs.Lines.{line_of};
ghost use Rattle.trace_report.specs.TraceText.{key_line};

use chan_values::{Event, Key};
use script_text::write_line;
use std::alloc::{AllocError, Global};

/// A key as its script line spells it, without the LF.
#[tactic(auto, using(crate::proofs::Fronts::without_last))]
fn spelled_key(alloc: Global, key: Key, press: bool) -> Result<Vec<u8>, AllocError>
    ensures { IfOk result (λ line. line.items ≡ line_of (event.Key key press)) }
{
    let mut line = Vec::new(alloc);
    if write_line(alloc, &Event::Key(key, press), &mut line).is_err() {
        return Err(AllocError);
    }
    line.truncate(line.len() - 1);
    Ok(line)
}

pub(crate) fn key_visit_line(
    alloc: Global,
    key: Key,
    press: bool,
    node: u32,
    handled: bool,
) -> Result<Vec<u8>, AllocError>
    ensures { IfOk result (λ line. line.items ≡ key_line key press node handled) }
{
    let mut line = String::from_str(alloc, "0 ")?.into_bytes();
    line.extend_from_slice(spelled_key(alloc, key, press)?.as_slice())?;
    line.extend_from_slice(format!(in alloc; " {node} {handled}\n")?.as_bytes())?;
    Ok(line)
}
