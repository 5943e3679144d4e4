//! The tables of a channel's components, or the first fault against the rules that speak of several files at once.
//!
//! Source: SceneGraph XML Guide, "component", "interface", "script" and "children".
#![tactic(auto)]

mod checked;
mod order;

pub use checked::tables;
pub use order::first_fault;
