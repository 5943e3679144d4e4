//! A component file with the trees of its inline scripts, or the first fault of the two.
#![tactic(auto)]

mod component;
mod laws;

pub use component::{CheckedComponent, ComponentFault, ComponentFileAnswer, read_component_file};
pub use laws::{component_or_fault, never_both_of_components, one_component, one_component_fault};
