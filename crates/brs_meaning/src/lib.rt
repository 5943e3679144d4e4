//! What the code of an actor means: its calls in progress as syntax trees in which parts are values, and the step that replaces the
//! leftmost innermost part whose operands are all values.
#![tactic(auto)]

pub mod laws;
mod node_method;

pub use node_method::{NodeMethod, node_method_named};
