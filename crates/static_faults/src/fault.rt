//! What a static fault is.

/// What is wrong.
#[derive(Clone, Copy, Debug, PartialEq, Eq)]
pub enum StaticKind {
    /// An exit, at its first token, of a loop kind that doesn't stand round it in the same function. A `for each` is a loop of the kind `for`.
    ExitOutsideLoop,
    /// A parameter that has the name of one before it in the same list.
    DuplicateParameter,
    /// A named function that has the name of one before it in the file.
    DuplicateFunction,
    /// A parameter, an assigned name with nothing behind it, a loop variable or a named function that is named `m`,
    /// or a named function that has the name of a built-in function.
    ReservedName,
    /// A `return` with a value, in a sub without a type or in a function or sub `as void`.
    ValueFromSub,
}

/// A static fault, with the place of the token that shows it.
#[derive(Clone, Copy, Debug, PartialEq, Eq)]
pub struct StaticFault {
    pub kind: StaticKind,
    /// The line, counted from 1.
    pub line: u32,
    /// The column, counted in bytes from 1.
    pub column: u32,
}

/// What stands round a statement in its function.
#[derive(Clone, Copy, Debug, PartialEq, Eq)]
pub struct Surroundings {
    /// Whether a `for` or a `for each` stands round it.
    pub in_for: bool,
    /// Whether a `while` stands round it.
    pub in_while: bool,
    /// Whether the function gives a value.
    pub gives_value: bool,
}
