//! The text that a `print` writes of its items, with the marks between them.
#![tactic(auto)]

mod items;
mod marks;
mod padding;
mod plain_items;
mod printing;

pub use marks::printed_text;
pub use printing::Printing;
