//! Why a channel folder is refused.

use crate::Text;

/// A fault of a channel folder. What its kind does not give is empty or 0.
#[derive(Debug, Drop)]
pub struct FolderFault {
    /// The kind of fault, from 1 to 19, as `docs/FORMATS.md` lists them.
    pub number: u8,
    /// The path of the file, relative to the folder.
    pub path: Text,
    /// The line, counted from 1.
    pub line: u32,
    /// The column in bytes, counted from 1.
    pub column: u32,
    /// The last item of the refusal, such as a name or the kind of a lexical fault.
    pub name: Text,
}
