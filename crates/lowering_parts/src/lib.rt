//! What code is put together with when its names come into tables: the tables of a function, instructions at their places, and numbers
//! of operands.
#![tactic(auto)]

mod operands;
mod places;
mod slots;
mod tables;

pub use operands::operands_after;
pub use places::{at_place, with_index};
pub use slots::Slots;
pub use tables::Tables;
