//! Values that leave the heap of an actor as portable values, and portable values that are laid
//! down in a heap.
#![tactic(auto)]

mod chain;
mod count;
mod fill;
mod lay;
mod leave;

pub use lay::copy_in;
pub use leave::{CopyFault, copy_out};
