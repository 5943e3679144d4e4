//! The effect of an instruction.

use actor_meaning::Request;
use chan_values::ErrorCode;

/// What an instruction does that neither calls nor leaves a function.
#[derive(Debug, Drop)]
pub enum Effect {
    /// It was performed, and its call goes on.
    Went,
    /// It raises this error, which is still to end the calls.
    Raises(ErrorCode),
    /// Its call waits for the answer.
    Asks(Request),
}
