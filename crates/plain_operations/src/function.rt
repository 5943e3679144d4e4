//! The functions of numbers and texts.

/// A built-in function of numbers and texts.
///
/// Source: BrightScript Language Reference, "Global String Functions", "Global Math Functions".
#[derive(Clone, Copy, Debug, PartialEq, Eq)]
pub enum PlainFunction {
    /// `Abs(n)`: the absolute value, which keeps the width.
    Abs,
    /// `Asc(s)`: the first character's number.
    Asc,
    /// `Chr(n)`: the character with a number.
    Chr,
    /// `Len(s)`: the number of characters.
    Len,
    /// `Left(s, n)`: the first characters.
    Left,
    /// `Right(s, n)`: the last characters.
    Right,
    /// `Mid(s, p)` and `Mid(s, p, n)`: the characters from a place on.
    Mid,
    /// `Instr(p, s, t)`: where a text stands in another.
    Instr,
    /// `LCase(s)`
    LCase,
    /// `UCase(s)`
    UCase,
    /// `Str(n)`: decimal, with a space in the place of a minus.
    Str,
    /// `StrI(n)`: the same as `Str(n)`.
    StrI,
    /// `StrToI(s)`: the Integer that a text writes.
    StrToI,
}
