//! Names without regard to the case of ASCII letters, each with a value.
//!
//! They are sorted once and then found by binary search, without memory.
#![tactic(auto)]

mod draft;
mod names;
mod order;

pub use draft::NameDraft;
pub use names::OrderedNames;
