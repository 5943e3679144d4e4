//! What is said of a channel folder that is refused.
ghost use Rattle.std.specs.Prelude.{◌≡◌, ◌++◌, Some, OnOk, OnErr, codes};
ghost use Rattle.outside.specs.Refusal.{refusal_text, given_text, given_number, item_text};
ghost use Rattle.outside.specs.Refusal as spec;

use chan_values::{FolderFault, NoMemory};
use std::alloc::Global;
use std::fmt;

// A text with a mark before it, or nothing where the text is empty.
#[derive(Clone, Copy)]
struct GivenText<'a> {
    mark: &'a str,
    text: &'a str,
}

impl fmt::Display for GivenText<'_> {
    ghost output = { λ given. Some (given_text given.mark.now given.text.now) };

    fn fmt<W: fmt::Write>(&self, f: &mut fmt::Formatter<W>) -> fmt::Result {
        if self.text.is_empty() {
            Ok(())
        } else {
            write!(f, "{}{}", self.mark, self.text)
        }
    }
}

// A number with a mark before it, or nothing where the number is 0.
#[derive(Clone, Copy)]
struct GivenNumber<'a> {
    mark: &'a str,
    number: u32,
}

impl fmt::Display for GivenNumber<'_> {
    ghost output = { λ given. Some (given_number given.mark.now given.number) };

    fn fmt<W: fmt::Write>(&self, f: &mut fmt::Formatter<W>) -> fmt::Result {
        if self.number == 0 {
            Ok(())
        } else {
            write!(f, "{}{}", self.mark, self.number)
        }
    }
}

// The last item of a fault with a space before it, or nothing where such a fault has none.
#[derive(Clone, Copy)]
struct LastItem<'a> {
    has: bool,
    text: &'a str,
}

impl fmt::Display for LastItem<'_> {
    ghost output = { λ item. Some (item_text item.has item.text.now) };

    fn fmt<W: fmt::Write>(&self, f: &mut fmt::Formatter<W>) -> fmt::Result {
        if self.has {
            write!(f, " {}", self.text)
        } else {
            Ok(())
        }
    }
}

/// Whether faults of this number have a last item: a kind of fault, a name, a uri or an id.
fn has_item(number: u8) -> bool
    ensures { result ≡ spec.has_item number }
{
    number == 5 || number == 7 || (number >= 9 && number <= 18)
}

/// Writes the refusal of a folder at the end, without LF: `refused F` and the fault's number, then where they are given a space
/// and the path, `:` and the line, `:` and the column, and a space and the last item, which may be empty: the base that `extends=""`
/// names, say. After an `Err` nothing has changed.
pub fn write_fault(alloc: Global, fault: &FolderFault, out: &mut Vec<u8>) -> Result<(), NoMemory>
    ensures ok { OnOk result (out.new.items ≡ out.old.items ++ refusal_text fault.now) }
    ensures err { OnErr result (out.new.items ≡ out.old.items) }
{
    let path = GivenText {
        mark: " ",
        text: fault.path.as_str(),
    };
    let line = GivenNumber {
        mark: ":",
        number: fault.line,
    };
    let column = GivenNumber {
        mark: ":",
        number: fault.column,
    };
    let item = LastItem {
        has: has_item(fault.number),
        text: fault.name.as_str(),
    };
    let Ok(text) = format!(in alloc; "refused F{}{path}{line}{column}{item}", fault.number) else {
        return Err(NoMemory);
    };
    match out.extend_from_slice(text.as_bytes()) {
        Ok(()) => Ok(()),
        Err(_) => Err(NoMemory),
    }
}
