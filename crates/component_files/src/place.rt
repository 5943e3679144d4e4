//! Places in a file.
ghost use Rattle.std.specs.Prelude.{◌≡◌, ◌+◌, ◌^◌, ◌<◌, ◌≤◌, length};
ghost use Rattle.component_files.specs.Places as spec;

/// A place in a file. Lines and columns are counted from 1, and columns in bytes.
#[derive(Clone, Copy, Debug, PartialEq, Eq)]
pub struct Place {
    pub line: u32,
    pub column: u32,
}

/// The place behind bytes.
pub(crate) fn place_after(place: Place, mut bytes: &[u8]) -> Place
    requires line { place.line + length bytes.now < 2 ^ 32 }
    requires column { place.column + length bytes.now < 2 ^ 32 }
    ensures place { result ≡ spec.place_after place bytes.entry.now }
    ensures line { result.line ≤ place.line + length bytes.entry.now }
    ensures column { result.column ≤ place.column + length bytes.entry.now }
{
    let mut line = place.line;
    let mut column = place.column;
    while let [b, more @ ..] = bytes {
        if *b == b'\n' {
            line += 1;
            column = 1;
        } else {
            column += 1;
        }
        bytes = more;
    }
    Place { line, column }
}
