//! How a call is left.

use chan_values::{ErrorCode, Place, Portable};

/// What an instruction does that leaves its function.
#[derive(Debug, Drop)]
pub enum Leaving {
    /// Its call ended, and the call below it goes on.
    Went,
    /// Its call ended, and the value leaves the actor. The calls below wait.
    Returned(Portable),
    /// Its call ended with a value that is too deep or too large to leave the actor. The calls below wait.
    TooBig(Place),
    /// It raises this error, which is still to end the calls.
    Raises(ErrorCode),
}
