//! What an observer is told of a change.

use crate::{Portable, Text};

/// The message of a change of a field.
///
/// Source: BrightScript Language Reference, "roSGNodeEvent".
#[derive(Debug, Drop)]
pub struct Message {
    /// The number of the node.
    pub node: u32,
    /// The node's id at the change.
    pub id: Text,
    /// The folded id of the field.
    pub field: Text,
    /// The field's new value.
    pub payload: Portable,
}
