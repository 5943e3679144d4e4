//! Values as declared types take them, and the instruction that binds a parameter to a value.
#![tactic(auto)]

mod binding;
mod fitting;
mod taking;

pub use binding::bind;
pub use fitting::typed;
pub use taking::take_typed;
