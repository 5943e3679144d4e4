//! The parser of statements and functions, by recursive descent: each function reads what the grammar's reading of its form reads.
#![tactic(auto)]

mod functions;
mod ifs;
mod lines;
mod loops;
mod print;
mod signs;
mod simple;
mod statements;
mod words;

pub use statements::Statements;
