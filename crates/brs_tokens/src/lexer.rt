//! A source file as its tokens, or its first lexical fault.
ghost use Rattle.std.specs.Prelude.{◌≡◌, ◌+◌, ◌^◌, ◌<◌, ◌≤◌, ◌++◌, length, take, drop, IfOk, IfErr, OnOk, OnErr};
ghost use Rattle.std.specs.Str.Lossy.{utf8_valid_len};
ghost use Rattle.brs_tokens.specs.Spelling as spec;
ghost use Rattle.brs_tokens.specs.Answer.{Answers};
ghost use Rattle.brs_tokens.specs.declared.lex_fault.LexKind;

use crate::bytes::byte_at;
use crate::lex_fault::{LexFault, LexKind};
use crate::piece::{Piece, PieceKind};
use crate::place::Place;
use crate::step::piece_at;
use crate::token::Token;
use crate::token_list::TokenList;
use chan_values::NoMemory;
use std::alloc::Global;

/// Why a source file has no tokens.
#[derive(Clone, Copy, Debug, PartialEq, Eq)]
pub enum LexAnswer {
    /// Its first lexical fault.
    Fault(LexFault),
    NoMemory,
}

/// How many bytes at the front are whole characters.
fn valid_len(src: &[u8]) -> usize
    ensures len { result ≡ utf8_valid_len src.now }
    ensures within { result ≤ length src.now }
{
    match str::from_utf8(src) {
        Ok(_) => src.len(),
        Err(e) => e.valid_up_to(),
    }
}

/// The length of the byte order mark at the start, or 0.
fn mark_len(src: &[u8]) -> usize
    ensures len { result ≡ spec.mark_len src.now }
    ensures within { result ≤ length src.now }
{
    if byte_at(src, 0) == 0xEF && byte_at(src, 1) == 0xBB && byte_at(src, 2) == 0xBF {
        3
    } else {
        0
    }
}

fn fault_at(kind: LexKind, place: Place) -> LexFault
    ensures { result ≡ spec.fault_at kind place }
{
    LexFault {
        kind,
        line: place.line,
        column: place.column,
    }
}

/// The place after a piece, of whose bytes and those behind it the first `good` are characters.
fn pass(piece: &[u8], good: usize, place: Place) -> Result<Place, LexFault>
    requires some { 1 ≤ place.column }
    requires line { place.line + length piece.now < 2 ^ 32 }
    requires column { place.column + length piece.now < 2 ^ 32 }
    ensures ok { IfOk result (λ p. p ≡ spec.place_after place piece.now) }
    ensures good { OnOk result (length piece.now ≤ good) }
    ensures err { IfErr result (λ f. f ≡ spec.fault_at LexKind.NotUtf8 (spec.place_after place (take good piece.now))) }
    ensures bad { OnErr result (good < length piece.now) }
    ensures some { IfOk result (λ p. 1 ≤ p.column) }
    ensures line { IfOk result (λ p. p.line ≤ place.line + length piece.now) }
    ensures column { IfOk result (λ p. p.column ≤ place.column + length piece.now) }
{
    if good < piece.len() {
        Err(fault_at(LexKind::NotUtf8, place.after(&piece[..good])))
    } else {
        Ok(place.after(piece))
    }
}

/// Adds the token of a piece at the front of the rest, if it makes one.
fn keep<'a>(
    tokens: &mut TokenList<'a>,
    piece: Piece,
    rest: &'a [u8],
    place: Place,
) -> Result<(), NoMemory>
    requires { piece.len ≤ length rest.now }
    ensures ok { OnOk result (tokens.new ≡ tokens.old ++ spec.token_of piece.kind (take piece.len rest.now) place) }
    ensures err { OnErr result (tokens.new ≡ tokens.old) }
{
    match piece.kind {
        PieceKind::Token(kind) => tokens.push(Token {
            kind,
            slice: &rest[..piece.len],
            line: place.line,
            column: place.column,
        }),
        PieceKind::Blank | PieceKind::Comment => Ok(()),
    }
}

/// The tokens of a source file whose first line has this number, or its first lexical fault.
///
/// Both are defined by the longest pieces of the file and the table of lexical faults (`AreTokens`, `IsFirstFault`): `spelling`, of which
/// the contract speaks, computes them ([`tokens_are_the_longest_pieces`](crate::tokens_are_the_longest_pieces),
/// [`the_fault_is_the_first_of_the_table`](crate::the_fault_is_the_first_of_the_table)). Takes time that grows with the number of bytes.
pub fn lex(alloc: Global, src: &[u8], first_line: u32) -> Result<TokenList<'_>, LexAnswer>
    requires line { 1 ≤ first_line }
    requires fits { first_line + length src.now < 2 ^ 32 }
    ensures { Answers (spec.spelling src.now first_line) result }
{
    let mut tokens = TokenList::new(alloc);
    let mut rest = src;
    let mut good = valid_len(src);
    let mut len = mark_len(src);
    let mut place = Place {
        line: first_line,
        column: 1,
    };
    'pieces: loop {
        let (passed, more) = rest.split_at(len);
        match pass(passed, good, place) {
            Ok(after) => place = after,
            Err(fault) => return Err(LexAnswer::Fault(fault)),
        }
        good -= len;
        rest = more;
        if rest.is_empty() {
            return Ok(tokens);
        }
        if good == 0 {
            return Err(LexAnswer::Fault(fault_at(LexKind::NotUtf8, place)));
        }
        let piece = match piece_at(rest) {
            Ok(piece) => piece,
            Err(kind) => return Err(LexAnswer::Fault(fault_at(kind, place))),
        };
        if let Err(NoMemory) = keep(&mut tokens, piece, rest, place) {
            return Err(LexAnswer::NoMemory);
        }
        len = piece.len;
    }
}
