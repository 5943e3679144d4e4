//! The plans by which nodes are made: the fields of each kind, and the child elements of its component file.
use crate::FieldType;
use chan_values::{Portable, Text};
use sqlite_items::Items;

/// The fields of a kind's own, in the order of their declaration.
pub type FieldPlanList = Items<FieldPlan>;

/// Child elements, in the order of the file.
pub type ChildPlanList = Items<ChildPlan>;

/// The attributes of a child element, in the order of the file.
pub type AttributeList = Items<AttributeValue>;

/// A field that each node of the kind has.
///
/// Source: SceneGraph XML Guide, "interface".
#[derive(Drop)]
pub struct FieldPlan {
    /// The name, as declared.
    pub id: Text,
    pub kind: FieldType,
    /// Whether a set of an equal value counts as a change.
    pub always: bool,
    /// The value that the field has before anything is set. It names no node.
    pub opening: Portable,
}

/// The value that an attribute gives a field of a new node.
#[derive(Drop)]
pub struct AttributeValue {
    /// The field's name, in any case of its letters.
    pub field: Text,
    /// The value, which names no node.
    pub value: Portable,
}

/// A child element: a node that is made with the node round it.
///
/// Source: SceneGraph XML Guide, "children".
#[derive(Drop)]
pub struct ChildPlan {
    /// The place of its kind.
    pub place: u32,
    /// What its attributes give the fields of the node.
    pub values: AttributeList,
    /// Its child elements, which follow the children that its kind gives.
    pub children: ChildPlanList,
}

/// How the nodes of a kind are made.
///
/// Source: SceneGraph XML Guide, "component".
#[derive(Drop)]
pub struct KindPlan {
    /// The kind's name, as declared.
    pub kind: Text,
    /// The place of the kind that it extends, `None` for the kind Node alone.
    pub base: Option<u32>,
    /// The fields of the kind's own, which follow those of its base.
    pub fields: FieldPlanList,
    /// The child elements of the kind's own, whose nodes follow the children that its base gives.
    pub children: ChildPlanList,
    /// How many nodes one making makes, the node and all below it; 1,048,577 where there are more.
    pub nodes: u32,
}
