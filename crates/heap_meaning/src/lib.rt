//! What the heap of an actor means: its cells as contracts see them, the store of arrays,
//! associative arrays and messages that they stand for, and what each change of one cell does to
//! that relation.
#![tactic(auto)]

mod plain;
mod shape;

pub use plain::Plain;
pub use shape::Shape;
