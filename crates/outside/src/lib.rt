//! What lies outside the program: files, a stream in, a stream out and a door for connections.
//!
//! Each is a trait with a written meaning and a count of its faults. What an object holds or has left may be told or not, and
//! the clauses on content hold where it is told. A count that stands at 2^64 - 1 cannot rise any more.
//!
//! The forms in memory tell all that they hold, and fail at the calls that they are told to fail at.
#![tactic(auto)]

pub mod calls;
pub mod door;
pub mod faults;
pub mod files;
pub mod laws;
pub mod listing;
pub mod memory_door;
pub mod memory_files;
pub mod memory_streams;
pub mod paths;
pub mod refusal;
pub mod status;
pub mod streams;
