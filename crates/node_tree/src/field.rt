//! One field of a node.
use crate::held::Held;
use chan_values::Text;
use field_types::FieldType;

/// A field of a node.
///
/// Source: SceneGraph XML Guide, "interface".
#[derive(Drop)]
pub struct Field {
    /// The name, folded.
    pub id: Text,
    pub kind: FieldType,
    /// Whether a set of an equal value counts as a change.
    pub always: bool,
    pub value: Held,
    /// The value that the field's kind opens with.
    pub opening: Held,
}
