//! Items of a `print` that are plain values.
ghost use Rattle.std.specs.Prelude.{◌≡◌, ◌++◌, OnOk};
ghost use Rattle.std.specs.Fmt.{decimal, signed_decimal};
ghost use Rattle.plain_operations.specs.Texts.{spaced_decimal, truth_text};
ghost use Rattle.brs_meaning.specs.Printing.{plain_item};

use brs_heap::Plain;
use chan_values::{NoMemory, Text};
use std::alloc::Global;

fn write_truth(b: bool, out: &mut Text) -> Result<(), NoMemory>
    ensures { OnOk result (out.new ≡ out.old ++ truth_text b) }
{
    out.push_str(if b { "true" } else { "false" })
}

fn write_decimal(alloc: Global, n: i64, out: &mut Text) -> Result<(), NoMemory>
    ensures { OnOk result (out.new ≡ out.old ++ signed_decimal n) }
{
    match n.to_string(alloc) {
        Ok(text) => out.push_str(text.as_str()),
        Err(_) => Err(NoMemory),
    }
}

/// Decimal, with a space in the place of a minus.
fn write_number(alloc: Global, n: i64, out: &mut Text) -> Result<(), NoMemory>
    ensures { OnOk result (out.new ≡ out.old ++ spaced_decimal n) }
{
    if n >= 0 {
        out.push_str(" ")?;
    }
    write_decimal(alloc, n, out)
}

/// A word and the number of a node or a message port.
fn write_reference(alloc: Global, word: &str, n: u32, out: &mut Text) -> Result<(), NoMemory>
    ensures { OnOk result (out.new ≡ out.old ++ (word.now ++ decimal n)) }
{
    match format!(in alloc; "{word}{n}") {
        Ok(text) => out.push_str(text.as_str()),
        Err(_) => Err(NoMemory),
    }
}

pub fn write_plain(alloc: Global, plain: Plain, out: &mut Text) -> Result<(), NoMemory>
    ensures { OnOk result (out.new ≡ out.old ++ plain_item plain) }
{
    match plain {
        Plain::Invalid => out.push_str("invalid"),
        Plain::Truth(b) => write_truth(b, out),
        Plain::Small(n) => write_number(alloc, i64::from(n), out),
        Plain::Big(n) => write_number(alloc, n, out),
        Plain::Function(_) => out.push_str("function"),
        Plain::Node(n) => write_reference(alloc, "node ", n, out),
        Plain::Port(n) => write_reference(alloc, "port ", n, out),
        Plain::Screen => out.push_str("screen"),
    }
}
