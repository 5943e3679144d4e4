//! The heap of one actor: texts, arrays, associative arrays and messages in counted cells.
//!
//! In this form a cell whose last reference is taken back stays where it is. Its count is kept all
//! the same, and so is the relation to the store, so that a heap that frees such cells keeps every
//! contract of this crate.
#![tactic(auto)]

mod arrays;
mod cell;
mod entries;
mod heap;
mod items;
mod keys;
mod maps;
mod places;
mod reading;
mod value;

pub use heap::{Heap, SetFault};
pub use heap_meaning::{Plain, Shape};
pub use value::Value;
