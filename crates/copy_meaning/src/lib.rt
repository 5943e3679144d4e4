//! What copies mean that leave a heap and come back: unfolding a value of a store into a portable
//! value, and laying a portable value down in a store as new objects.
#![tactic(auto)]

mod laws;

pub use laws::{laid_down_unfolds, one_answer, same_store_same_answer, unfolded_is_bounded};
