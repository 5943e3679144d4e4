//! The parser of expressions, by recursive descent: each function reads what the grammar's reading of its form reads.
#![tactic(auto)]

mod leaves;
mod level;
mod lists;
mod operators;
mod primary;
mod signs;

pub use leaves::{blank, end_function, end_sub, name_of};
pub use level::{Inner, Level, Part};
