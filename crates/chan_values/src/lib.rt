//! The plain values that every other crate stands on.
#![tactic(auto)]

mod access;
mod argument_list;
mod bounds;
mod bytes;
mod copy;
mod end_reason;
mod equality;
mod error_code;
mod escape;
mod event;
mod folded;
mod folder_fault;
mod key;
mod keys;
mod limits;
mod message;
mod place;
mod portable;
mod text;
mod writing;

pub use access::Access;
pub use argument_list::ArgumentList;
pub use bounds::measure;
pub use bytes::Bytes;
pub use copy::{copy_message, copy_portable, copy_text};
pub use end_reason::EndReason;
pub use equality::same;
pub use error_code::ErrorCode;
pub use escape::escape_text;
pub use event::Event;
pub use folded::fold_name;
pub use folder_fault::FolderFault;
pub use key::Key;
pub use limits::{MAX_DEPTH, MAX_PARTS, Measure};
pub use message::Message;
pub use place::Place;
pub use portable::{ItemList, Pair, PairList, Portable};
pub use text::Text;
pub use writing::{text_of_value, write_value};

/// Memory ran out. The object of the call is as it was, except where the call says otherwise.
#[derive(Clone, Copy, Debug, PartialEq, Eq)]
pub struct NoMemory;
