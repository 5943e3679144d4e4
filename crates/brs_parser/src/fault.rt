//! The place of a syntax fault.
ghost use Rattle.std.specs.Prelude.{◌≡◌, ◌+◌, ◌^◌, ◌<◌, ◌≤◌, length, List};
ghost use Rattle.brs_tokens.specs.Tok.{Tok, tok_of};
ghost use Rattle.brs_parser.specs.FaultPlace as spec;
ghost use Rattle.brs_parser.specs.FaultPlace.{Fits, IsSpelled};

use brs_tokens::{Place, Token, TokenKind, TokenList, tokens_are_spelled, tokens_stand_in_order};
use grammar_rules::place_of;

/// The first token such that no file begins with the tokens up to and including it.
#[derive(Clone, Copy, Debug, PartialEq, Eq)]
pub struct SyntaxFault {
    /// The token, counted from 0. The end counts as a token behind the last one.
    pub token: u32,
    /// Its line. The end is in the line of the last token, and behind a line end in the next.
    pub line: u32,
    /// The column of its first byte, counted in bytes from 1. The end stands directly behind the last token.
    pub column: u32,
}

/// The tokens of a source file, their lines and their columns are few enough.
fn all_fit()
    ensures { (tokens : List Tok) → IsSpelled tokens → Fits tokens }
{
    tokens_are_spelled();
    tokens_stand_in_order();
}

fn place_behind(token: &Token<'_>) -> Place
    requires line { token.now.line + 1 < 2 ^ 32 }
    requires column { token.now.column + length token.now.slice.now < 2 ^ 32 }
    ensures { result ≡ spec.place_behind (tok_of token.now) }
{
    match token.kind {
        TokenKind::Newline => Place {
            line: token.line + 1,
            column: 1,
        },
        _ => Place {
            line: token.line,
            column: token.column + token.slice.len() as u32,
        },
    }
}

#[tactic(auto, using(crate::proofs::Places::line_fits, crate::proofs::Places::column_fits, crate::proofs::Places::not_there))]
fn end_place(tokens: &TokenList<'_>) -> Place
    requires spelled { IsSpelled tokens.now }
    ensures { result ≡ spec.end_place tokens.now }
{
    all_fit();
    match tokens.get(tokens.len().saturating_sub(1)) {
        Some(token) => place_behind(token),
        None => Place { line: 1, column: 1 },
    }
}

#[tactic(auto, using(crate::proofs::Places::not_there))]
fn place_at(tokens: &TokenList<'_>, at: usize) -> Place
    requires spelled { IsSpelled tokens.now }
    ensures { result ≡ spec.place_at tokens.now at }
{
    match tokens.get(at) {
        Some(token) => place_of(token),
        None => end_place(tokens),
    }
}

/// The fault at a token, or at the end.
#[tactic(auto, using(crate::proofs::Places::count_fits))]
pub fn fault_at(tokens: &TokenList<'_>, at: usize) -> SyntaxFault
    requires spelled { IsSpelled tokens.now }
    requires within { at ≤ length tokens.now }
    ensures { result ≡ spec.fault_at tokens.now at }
{
    all_fit();
    let place = place_at(tokens, at);
    SyntaxFault {
        token: at as u32,
        line: place.line,
        column: place.column,
    }
}
