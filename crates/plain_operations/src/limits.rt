//! How long a text may grow.

/// The most characters that a text made by `+` has.
pub const LONGEST_TEXT: usize = 1_048_576;
