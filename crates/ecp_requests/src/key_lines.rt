//! The script lines of a request.
ghost use Rattle.std.specs.Prelude.{◌≡◌, ◌++◌, OnOk, OnErr};
ghost use Rattle.ecp_requests.specs.KeyLines.{key_lines};

use crate::Request;
use chan_values::{Event, NoMemory};
use script_text::write_line;
use std::alloc::Global;

fn write_keys(alloc: Global, request: &Request, out: &mut Vec<u8>) -> Result<(), NoMemory>
    ensures { OnOk result (out.new.items ≡ out.old.items ++ key_lines request.now) }
{
    let Request::Keys {
        key,
        press,
        release,
    } = request
    else {
        return Ok(());
    };
    if *press {
        write_line(alloc, &Event::Key(*key, true), out)?;
    }
    if *release {
        write_line(alloc, &Event::Key(*key, false), out)?;
    }
    Ok(())
}

/// Adds the script lines of a request, which are none where it presses and releases no key. After an `Err` nothing has changed.
pub fn write_key_lines(alloc: Global, request: &Request, out: &mut Vec<u8>) -> Result<(), NoMemory>
    ensures ok { OnOk result (out.new.items ≡ out.old.items ++ key_lines request.now) }
    ensures err { OnErr result (out.new.items ≡ out.old.items) }
{
    let mut lines = Vec::new(alloc);
    write_keys(alloc, request, &mut lines)?;
    match out.extend_from_slice(lines.as_slice()) {
        Ok(()) => Ok(()),
        Err(_) => Err(NoMemory),
    }
}
