//! The rules of a channel folder that speak of several files at once: kinds, their bases and fields, scripts and scopes, and the list of all
//! faults against them.
//!
//! Nearly all of this crate is definitions, in `specs/`. Its types are what these speak of.
//!
//! Source: SceneGraph XML Guide, "component", "interface", "script" and "children".
#![tactic(auto)]

mod answer;
mod children;
mod component;
mod names;
mod source;

pub use answer::{TablesAnswer, fault_on, refusal};
pub use children::push_children;
pub use component::PathedComponent;
pub use names::NameTable;
pub use source::{DeclaredFunction, SourceFunctions};
