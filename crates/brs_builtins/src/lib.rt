//! The operations of the language: operators, built-in functions and methods, reads and writes of members and of
//! indexes, by one table. What touches a node, a port or the screen is no operation.
#![tactic(auto)]

mod names;
mod operands;
mod operation;
mod outcomes;
mod table;

pub use names::{function_named, method_named};
pub use object_operations::{Applied, Receiver, receiver_of};
pub use operands::operand_at;
pub use operation::Operation;
pub use table::apply;
