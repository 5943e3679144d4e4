//! What operators and functions give.
use chan_values::{ErrorCode, Text};

/// The value that an operator, or a function of numbers and texts, gives, or the error that it raises.
#[derive(Debug, Drop)]
pub enum Outcome {
    /// The value `invalid`.
    Invalid,
    /// A Boolean.
    Boolean(bool),
    /// An Integer, of 32 bits.
    Integer(i32),
    /// A LongInteger, of 64 bits.
    LongInteger(i64),
    /// A String.
    Words(Text),
    /// A run-time error.
    Raised(ErrorCode),
}
