//! Names, keywords and comments by word.
ghost use Rattle.std.specs.Prelude.{◌≡◌, ◌≤◌, length};
ghost use Rattle.std.specs.List.{list_any};
ghost use Rattle.chan_values.specs.Folded as folded;
ghost use Rattle.brs_tokens.specs.Pieces as spec;
ghost use Rattle.brs_tokens.specs.Lengths.{word_piece};

use crate::classes::{Class, run_len};
use crate::piece::{Piece, PieceKind};
use crate::token::TokenKind;

fn folded_byte(b: u8) -> u8
    ensures { result ≡ folded.folded_byte b }
{
    if b >= b'A' && b <= b'Z' { b + 32 } else { b }
}

/// Whether the name is the word, which is in small letters.
fn is_word(word: &[u8], name: &[u8]) -> bool
    ensures { result ≡ spec.is_word word.now name.now }
{
    match (word, name) {
        ([], []) => true,
        ([w, word @ ..], [n, name @ ..]) => *w == folded_byte(*n) && is_word(word, name),
        _ => false,
    }
}

fn is_any(words: &[&str], name: &[u8]) -> bool
    ensures { result ≡ list_any (λ word. spec.is_word word.now name.now) words.now }
{
    match words {
        [] => false,
        [word, words @ ..] => is_word(word.as_bytes(), name) || is_any(words, name),
    }
}

#[tactic(auto, unfolding(crate::specs::Pieces::is_keyword))]
fn is_keyword(name: &[u8]) -> bool
    ensures { result ≡ spec.is_keyword name.now }
{
    is_any(
        &[
            "and",
            "else",
            "elseif",
            "end",
            "endfor",
            "endfunction",
            "endif",
            "endsub",
            "endwhile",
            "exit",
            "exitfor",
            "exitwhile",
            "false",
            "for",
            "function",
            "goto",
            "if",
            "invalid",
            "let",
            "mod",
            "next",
            "not",
            "or",
            "print",
            "return",
            "step",
            "stop",
            "sub",
            "then",
            "to",
            "true",
            "while",
        ],
        name,
    )
}

/// The name or keyword at the front, or the comment that the name `rem` begins.
pub(crate) fn word_piece(bytes: &[u8]) -> Piece
    ensures piece { result ≡ word_piece bytes.now }
    ensures within { result.len ≤ length bytes.now }
{
    let len = run_len(bytes, Class::NameByte);
    let (name, more) = bytes.split_at(len);
    if is_word(b"rem", name) {
        Piece {
            kind: PieceKind::Comment,
            len: len + run_len(more, Class::LineByte),
        }
    } else {
        Piece {
            kind: PieceKind::Token(if is_keyword(name) {
                TokenKind::Keyword
            } else {
                TokenKind::Name
            }),
            len,
        }
    }
}
