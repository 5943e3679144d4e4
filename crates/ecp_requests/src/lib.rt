//! Requests of the External Control Protocol: what the bytes of a connection ask for, and what it is answered.
#![tactic(auto)]

mod empty_line;
mod head;
mod key_lines;
mod key_name;
mod laws;
mod replies;
mod request;
mod target;

pub use key_lines::write_key_lines;
pub use key_name::KeyName;
pub use laws::{later_bytes_change_nothing, pieces_make_no_difference};
pub use replies::reply;
pub use request::{Request, read_request};
