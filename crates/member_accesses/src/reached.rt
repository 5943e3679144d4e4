//! What an access to a member or an index comes to.

use chan_values::Access;
use object_operations::Applied;

/// What an access to a member or an index comes to.
#[derive(Debug, Drop)]
pub enum Reached {
    /// It is done: a value, which is the caller's to release, or an error.
    Done(Applied),
    /// It belongs to a node, which is to be asked.
    Asks(Access),
}
