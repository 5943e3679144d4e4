//! The instruction of a `print`: its text or its error is that of the row of its instruction, whatever machine the actor is seen as.
#![tactic(auto)]

mod instruction;

pub use instruction::print;
pub use printed_text::Printing;
