//! What the calls of an actor are about to do.

use chan_values::ErrorCode;

/// What the calls in progress of an actor are about to do. An actor without calls waits.
#[derive(Clone, Copy, Debug, PartialEq, Eq)]
pub enum Phase {
    /// The innermost call is at work.
    Works,
    /// The innermost call has an open want.
    Waits,
    /// The innermost call is about to raise this error, which was handed back to it.
    Fails(ErrorCode),
}
