//! The calls in progress of an actor, as its machine keeps them: their operands and their slots lie in stacks that grow, and no call takes
//! memory of its own.
#![tactic(auto)]

mod each;
mod header;
mod operands;
mod stack;

pub use each::{Each, KeyList};
pub use header::{CallHead, CallKind, Landing};
pub use operands::Operand;
pub use stack::{FrameStack, MAX_CALLS};
