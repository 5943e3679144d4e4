//! The top call: a channel folder is checked, or run under a script, and its refusal or its transcript is written.
#![tactic(auto)]

mod command;
mod commands;
mod decimal;
pub mod first_laws;
mod first_run;
mod folder;
mod input;
mod output;
mod run;
mod script;

pub use commands::channel_main;
