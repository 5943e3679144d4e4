//! The plans by which the nodes of a channel are made: one for each built-in kind, and one for each component.
//!
//! Source: SceneGraph XML Guide, "component" and "children".
#![tactic(auto)]

mod built_in;
mod children;
pub mod laws;
mod nodes;
mod places;
mod plans;
mod table;

pub use table::kind_plans;
