//! The types of fields, and the plans by which nodes are made.
#![tactic(auto)]

mod attribute;
mod conversion;
mod plan_table;
mod plans;
mod types;

pub use attribute::{AttributeAnswer, read_attribute};
pub use conversion::convert;
pub use plan_table::PlanTable;
pub use plans::{
    AttributeList, AttributeValue, ChildPlan, ChildPlanList, FieldPlan, FieldPlanList, KindPlan,
};
pub use types::{FieldType, field_type, opening};
