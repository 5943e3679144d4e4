//! The order of a channel's components in which each stands behind its base and the kinds of its child elements.
//!
//! Source: SceneGraph XML Guide, "component", its attribute extends, and "children".
#![tactic(auto)]

mod laws;
mod lists;
mod named;
mod order;
mod walk;

pub use laws::order_is_good;
pub use order::kind_order;
