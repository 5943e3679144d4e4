//! The faults of a channel's fields that ask what a kind inherits: ids that stand twice, and texts that a field's type doesn't
//! read.
//!
//! Fields are looked for along the bases of a kind, in a table with a row for each kind.
//!
//! Source: SceneGraph XML Guide, "component", "interface" and "children".
#![tactic(auto)]

mod fields;
mod rows;
mod table;
mod values;

pub use fields::check_duplicate_fields;
pub use table::FieldTable;
pub use values::check_values;
