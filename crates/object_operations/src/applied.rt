//! What an operation answers.

use brs_heap::Value;
use chan_values::ErrorCode;

/// A value, which is the caller's to release, or the error that was raised.
#[derive(Debug, Drop)]
pub enum Applied {
    Value(Value),
    Raised(ErrorCode),
}
