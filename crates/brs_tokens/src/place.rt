//! A place in a source file.
ghost use Rattle.std.specs.Prelude.{◌≡◌, ◌+◌, ◌^◌, ◌<◌, ◌≤◌, length};

/// A place in a source file.
#[derive(Clone, Copy, Debug, PartialEq, Eq)]
pub struct Place {
    /// The line, counted from 1.
    pub line: u32,
    /// The column, counted in bytes from 1.
    pub column: u32,
}

impl Place {
    ghost use Rattle.brs_tokens.specs.Spelling as spec;

    /// The place after a byte.
    fn after_byte(self, b: u8) -> Place
        requires line { self.line + 1 < 2 ^ 32 }
        requires column { self.column + 1 < 2 ^ 32 }
        ensures { result ≡ spec.after_byte self b }
    {
        if b == b'\n' {
            Place {
                line: self.line + 1,
                column: 1,
            }
        } else {
            Place {
                line: self.line,
                column: self.column + 1,
            }
        }
    }

    /// The place after these bytes.
    pub(crate) fn after(self, bytes: &[u8]) -> Place
        requires some { 1 ≤ self.column }
        requires line { self.line + length bytes.now < 2 ^ 32 }
        requires column { self.column + length bytes.now < 2 ^ 32 }
        ensures place { result ≡ spec.place_after self bytes.now }
        ensures some { 1 ≤ result.column }
        ensures line { result.line ≤ self.line + length bytes.now }
        ensures column { result.column ≤ self.column + length bytes.now }
    {
        let mut place = self;
        for b in bytes {
            place = place.after_byte(*b);
        }
        place
    }
}
