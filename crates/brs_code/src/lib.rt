//! The code of a channel: instructions, functions, and the code of all files with its scopes.
#![tactic(auto)]

mod code;
mod effect;
mod function;
mod functions;
mod instr;
mod join;
mod rule;
mod scope;
mod verified;

pub use code::Code;
pub use effect::Turn;
pub use function::{Function, Mark, Parameter, ValueType};
pub use functions::FunctionList;
pub use instr::{Instr, Operator, Placed};
pub use scope::{ScopeEntry, ScopeList};
pub use verified::{Verified, verify};
