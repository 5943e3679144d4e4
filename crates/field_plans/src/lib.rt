//! The fields of a kind's own with the values that they have before anything is set, and what the attributes of a child element give the fields of
//! its node.
//!
//! Source: SceneGraph XML Guide, "interface" and "children".
#![tactic(auto)]

mod attributes;
mod fields;
mod laws;
mod values;

pub use attributes::attribute_values;
pub use fields::{own_fields, told_fields};
pub use laws::a_value_is_what_the_type_reads;
pub use values::read_value;
