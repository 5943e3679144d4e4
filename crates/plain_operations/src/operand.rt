//! Values as operators and functions see them.

/// A value as operators, and functions of numbers and texts, see it. A text is lent.
///
/// Source: BrightScript Language Reference, "Expressions, Variables, and Types".
#[derive(Clone, Copy, Drop)]
pub enum Operand<'a> {
    /// The value `invalid`.
    Invalid,
    /// A Boolean.
    Boolean(bool),
    /// An Integer, of 32 bits.
    Integer(i32),
    /// A LongInteger, of 64 bits.
    LongInteger(i64),
    /// A String.
    Words(&'a str),
    /// A function.
    Function,
    /// A value of any other kind.
    Other,
}
