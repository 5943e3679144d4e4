//! What calls in progress hold is taken back by the heap: operands that an instruction took, a call that ends, and all calls.
#![tactic(auto)]

mod operands;
mod release;
mod slots;

pub use operands::{drop_operands, release_operand};
pub use release::{release_call, release_calls};
pub use slots::release_slot;
