//! The kinds of value that a heap tells apart.

/// What a value is: plain, or what its cell holds.
#[derive(Clone, Copy, Debug, PartialEq, Eq)]
pub enum Shape {
    /// A value that needs no cell.
    Plain,
    /// A String.
    Words,
    /// An array.
    Array,
    /// An associative array.
    Pairs,
    /// A message of a field.
    Message,
}
