//! One node.
use crate::children::ChildList;
use crate::field_list::FieldList;
use chan_values::Text;

/// A node.
///
/// Source: SceneGraph Reference, "Node".
#[derive(Drop)]
pub struct Node {
    /// The kind's name, as declared.
    pub kind: Text,
    /// The actor to which the node belongs, 0 for render.
    pub owner: u32,
    pub parent: Option<u32>,
    pub children: ChildList,
    pub fields: FieldList,
}
