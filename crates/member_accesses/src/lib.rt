//! Reads and writes of members and of indexes, of nodes too: what each comes to is its row of the meaning, whatever store the heap stands
//! for.
#![tactic(auto)]

mod fields;
mod members;
mod named;
mod reached;

pub use members::{read_index, read_member, write_index, write_member};
pub use reached::Reached;
