//! The focus, and the keys that it gets.
#![tactic(auto)]

mod chain_list;
mod focus;
mod laws;
mod texts;

pub use chain_list::ChainList;
pub use focus::Focus;
pub use laws::chains_go_up;
pub use texts::key_text;
