//! Operations that make objects, or that read what a message tells: `CreateObject` of arrays and associative
//! arrays, `keys` and `append` of associative arrays, and the methods of messages, each exactly by its row of the
//! table.
#![tactic(auto)]

mod append;
mod create;
mod data;
mod keys;
mod messages;

pub use append::call_append;
pub use create::create_object;
pub use data::call_data;
pub use keys::call_keys;
pub use messages::call_message_method;
