//! The parser of source files: the tree of a token list, or its first fault, and the owner of a tree.
#![tactic(auto)]

mod fault;
mod file;
mod nesting;
mod parsed_file;
mod source;

pub use fault::SyntaxFault;
pub use parsed_file::ParsedFile;
pub use source::{ParseAnswer, parse};
