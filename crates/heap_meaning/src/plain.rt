//! Values that are whole in themselves.

/// A value that needs no cell: it is copied by reading it, and counts for no cell.
///
/// Source: BrightScript Language Reference, "Expressions, Variables, and Types".
#[derive(Clone, Copy, Debug, PartialEq, Eq)]
pub enum Plain {
    /// The value `invalid`.
    Invalid,
    /// A Boolean.
    Truth(bool),
    /// An Integer, of 32 bits.
    Small(i32),
    /// A LongInteger, of 64 bits.
    Big(i64),
    /// A function, by its number in the code.
    Function(u32),
    /// A node, by its number, from 1 on.
    Node(u32),
    /// A message port, by its number.
    Port(u32),
    /// The screen.
    Screen,
}
