//! What calls on nodes answer.
use chan_values::{Portable, Text};

/// What a set of a field did.
///
/// Source: SceneGraph Reference, "ifSGNodeField", "setField".
#[derive(Clone, Copy, Debug, PartialEq, Eq)]
pub enum SetResult {
    /// The node has no field of this name. Nothing has changed.
    NoField,
    /// The value does not fit the field's type. Nothing has changed.
    NoFit,
    /// The field holds the same value already, and the set does not count as a change.
    Same,
    /// The field holds the value now, and the set counts as a change.
    Changed,
}

/// Why no node was made.
#[derive(Clone, Copy, Debug, PartialEq, Eq)]
pub enum MakeFault {
    /// There would be more than `MAX_NODES` nodes.
    TooManyNodes,
    /// Memory ran out.
    NoMemory,
}

/// A field, as the report shows it.
#[derive(Clone, Copy)]
pub struct FieldLine<'a> {
    /// The name, folded.
    pub id: &'a Text,
    pub value: &'a Portable,
    /// Whether the value is the one that the field's kind opens with.
    pub opening: bool,
}
