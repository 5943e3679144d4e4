//! The methods of messages of fields.

/// A method of messages.
///
/// Source: SceneGraph, "roSGNodeEvent".
#[derive(Clone, Copy, Debug, PartialEq, Eq)]
pub enum MessageMethod {
    /// `getField()`: the id of the field.
    Field,
    /// `getNode()`: the id of the node.
    Id,
    /// `getRoSGNode()`: the node.
    Node,
}
