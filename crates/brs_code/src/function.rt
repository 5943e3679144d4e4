//! The code of a function.

use crate::Placed;
use chan_values::Text;
use sqlite_items::Items;

/// What a parameter or a returned value takes.
///
/// Source: BrightScript Language Reference, "Types".
#[derive(Clone, Copy, Debug, PartialEq, Eq)]
pub enum ValueType {
    Integer,
    LongInteger,
    String,
    Boolean,
    Function,
    /// Any value: no type, and the types that check nothing.
    Any,
}

/// What stands where in a `print`.
///
/// Source: BrightScript Language Reference, "PRINT".
#[derive(Clone, Copy, Debug, PartialEq, Eq)]
pub enum Mark {
    Semicolon,
    Comma,
    /// The next operand.
    Value,
}

/// A parameter. Its number is its place in the list.
#[derive(Clone, Copy, Debug, PartialEq, Eq)]
pub struct Parameter {
    /// The slot of its name.
    pub slot: usize,
    /// What its argument or its default has to be.
    pub kind: ValueType,
    /// Where a call goes on for which this is the first parameter without an argument.
    pub entry: usize,
}

/// The code of a function, named or anonymous. A call without an argument for the parameter of number `n`, and with one for each
/// before it, begins at that parameter's `entry`, and one with an argument for each at `start`.
#[derive(Debug, Drop)]
pub struct Function {
    /// The place of its file's path in the listing, which joining sets.
    pub path: u32,
    /// The line of its first word.
    pub line: u32,
    /// How many anonymous functions the files before its own have, which joining sets. The instruction `Function(k)` is the anonymous
    /// function of number `first + k`.
    pub first: usize,
    pub parameters: Items<Parameter>,
    /// How many arguments a call needs at least: up to the last parameter without a default.
    pub needed: usize,
    /// What a returned value has to be.
    pub value: ValueType,
    /// The folded name of each slot.
    pub names: Items<Items<u8>>,
    /// The texts, and the folded names of members and keys.
    pub texts: Items<Text>,
    /// The marks of each `print`, one after another.
    pub marks: Items<Mark>,
    /// Where the body begins.
    pub start: usize,
    pub code: Items<Placed>,
}
