//! Instructions of members and of indexes: each does the row of its instruction, whatever machine the actor is seen as. A node is asked for
//! its fields.
#![tactic(auto)]

mod indexes;
mod members;
mod settling;
mod texts;

pub use indexes::{index, keep_index, store_index};
pub use members::{keep_member, member, store_member};
