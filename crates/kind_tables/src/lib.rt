//! What a channel's kinds are: their bases, the functions in their scopes, their fields' handlers and the functions of their interfaces, in tables
//! that are filled once and read without memory.
//!
//! Source: SceneGraph XML Guide, "component", "interface" and "script".
#![tactic(auto)]

mod ancestry;
mod kinds;
mod own;
mod rows;
mod scopes;
mod tables;

pub use tables::{Tables, kind_tables};
