//! The named functions of a channel's source texts.
use chan_values::Text;
use sqlite_items::Items;

/// A named function of a source text.
///
/// Source: BrightScript Language Reference, "Function declarations".
#[derive(Debug, Drop)]
pub struct DeclaredFunction {
    /// The name, with each ASCII capital letter as the small one.
    pub name: Text,
    /// The line of the name, counted from 1.
    pub line: u32,
    /// The column of the name in bytes, counted from 1.
    pub column: u32,
}

/// The named functions of a source file or of an inline script, in order.
#[derive(Debug, Drop)]
pub struct SourceFunctions {
    /// The path of the file; of an inline script that of its component file.
    pub path: Text,
    /// Whether this is an inline script.
    pub inline: bool,
    pub functions: Items<DeclaredFunction>,
}
