//! The inbox of the render actor: keys, posted accesses and ends of tasks, one behind the other.
#![tactic(auto)]

mod counts;
mod entry;
mod inbox;

pub use entry::Entry;
pub use inbox::Inbox;
