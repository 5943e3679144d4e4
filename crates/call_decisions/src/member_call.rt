//! What the call of a member calls.

use brs_builtins::Operation;
use chan_values::ErrorCode;

/// What `x.k(..)` calls.
///
/// Source: BrightScript Language Reference, "BrightScript Interfaces".
#[derive(Clone, Copy, Debug, PartialEq, Eq)]
pub enum MemberCall {
    /// The function of this number, which stands at the key of an associative array. That array is its `m`.
    Function(u32),
    /// A built-in method of a value that is no node, no port and no screen: this operation, with the value as its first argument.
    Method(Operation),
    /// A method of the node of this number.
    Node(u32),
    /// A method of the port of this number.
    Port(u32),
    /// A method of the screen.
    Screen,
    /// Nothing: this error.
    Refused(ErrorCode),
}
