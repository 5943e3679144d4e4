//! A part of an attribute's value.
ghost use Rattle.std.specs.Prelude.{◌≡◌, ◌++◌, OnOk};
ghost use Rattle.xml_pieces.specs.Parts.{part_bytes};

use chan_values::{Bytes, NoMemory};

/// What a byte or a reference of an attribute's value stands for.
#[derive(Clone, Copy, Debug, PartialEq, Eq)]
pub enum Part {
    Byte(u8),
    /// A character, which stands for its bytes in UTF-8.
    Char(char),
}

/// Adds the bytes of a part at the end.
pub(crate) fn push_part(found: &mut Bytes, part: Part) -> Result<(), NoMemory>
    ensures { OnOk result (found.new ≡ found.old ++ part_bytes part) }
{
    match part {
        Part::Byte(b) => found.push(b),
        Part::Char(c) => {
            let mut room = [0; 4];
            let bytes = c.encode_utf8(&mut room);
            found.push_slice(bytes.as_bytes())
        }
    }
}
