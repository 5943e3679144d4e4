//! The methods of texts, numbers and Booleans.

/// A method of texts, numbers and Booleans.
///
/// Source: BrightScript reference, "ifString", "ifStringOps", "ifToStr".
#[derive(Clone, Copy, Debug, PartialEq, Eq)]
pub enum PlainMethod {
    /// `toStr()`
    ToStr,
    /// `toInt()`
    ToInt,
    /// `len()`
    Len,
    /// `trim()`
    Trim,
}
