//! Calls of what neither is a function of the source nor asks the world: built-in methods of values, and built-in functions.
#![tactic(auto)]

mod built_ins;
mod callees;
mod methods;
mod operating;
mod refusals;

pub use built_ins::{call_built_in, call_built_in_member};
pub use callees::{member_at, number_at};
pub use methods::call_method;
pub use refusals::{refuse_call, refuse_member, refuse_member_number, refuse_number};
