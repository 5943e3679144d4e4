//! The spelling of BrightScript: a source file as a list of tokens.
#![tactic(auto)]

mod bytes;
mod classes;
mod first_form;
mod laws;
mod lex_fault;
mod lexer;
mod number;
mod piece;
mod place;
mod quoted;
mod scan;
mod step;
mod token;
mod token_list;
mod word;

pub use first_form::lex_first;
pub use laws::{
    the_fault_is_the_first_of_the_table, tokens_are_spelled, tokens_are_the_longest_pieces,
    tokens_stand_in_order,
};
pub use lex_fault::{LexFault, LexKind};
pub use lexer::{LexAnswer, lex};
pub use number::{NumberValue, number_value};
pub use piece::{Piece, PieceKind};
pub use place::Place;
pub use quoted::text_value;
pub use token::{Token, TokenKind};
pub use token_list::TokenList;
