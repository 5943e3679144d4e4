//! The word of a token.
ghost use Rattle.std.specs.Prelude.{◌≡◌, map};
ghost use Rattle.brs_tokens.specs.Tok.{tok_of};
ghost use Rattle.grammar_rules.specs.Words as spec;
ghost use Rattle.grammar_rules.specs.declared.word.Word;

use crate::word::Word;
use brs_tokens::{Place, Token, TokenKind};

const KEYWORDS: [(&[u8], Word); 32] = [
    (b"and", Word::And),
    (b"else", Word::Else),
    (b"elseif", Word::ElseIf),
    (b"end", Word::EndWord),
    (b"endfor", Word::EndFor),
    (b"endfunction", Word::EndFunction),
    (b"endif", Word::EndIf),
    (b"endsub", Word::EndSub),
    (b"endwhile", Word::EndWhile),
    (b"exit", Word::Exit),
    (b"exitfor", Word::ExitFor),
    (b"exitwhile", Word::ExitWhile),
    (b"false", Word::False),
    (b"for", Word::For),
    (b"function", Word::Function),
    (b"goto", Word::Goto),
    (b"if", Word::If),
    (b"invalid", Word::Invalid),
    (b"let", Word::Let),
    (b"mod", Word::Mod),
    (b"next", Word::Next),
    (b"not", Word::Not),
    (b"or", Word::Or),
    (b"print", Word::Print),
    (b"return", Word::Return),
    (b"step", Word::Step),
    (b"stop", Word::Stop),
    (b"sub", Word::Sub),
    (b"then", Word::Then),
    (b"to", Word::To),
    (b"true", Word::True),
    (b"while", Word::While),
];

/// Names that have a meaning of their own where a form asks for it.
const CONTEXTUAL: [(&[u8], Word); 11] = [
    (b"as", Word::As),
    (b"each", Word::Each),
    (b"in", Word::In),
    (b"integer", Word::Integer),
    (b"longinteger", Word::LongInteger),
    (b"string", Word::String),
    (b"boolean", Word::Boolean),
    (b"object", Word::Object),
    (b"dynamic", Word::Dynamic),
    (b"interface", Word::Interface),
    (b"void", Word::Void),
];

const SIGNS: [(&[u8], Word); 29] = [
    (b"+", Word::Plus),
    (b"-", Word::Minus),
    (b"*", Word::Star),
    (b"\\", Word::Backslash),
    (b"=", Word::Equal),
    (b"<>", Word::NotEqual),
    (b"<", Word::Less),
    (b">", Word::Greater),
    (b"<=", Word::LessEqual),
    (b">=", Word::GreaterEqual),
    (b"<<", Word::ShiftLeft),
    (b">>", Word::ShiftRight),
    (b"(", Word::Open),
    (b")", Word::Close),
    (b"[", Word::OpenBracket),
    (b"]", Word::CloseBracket),
    (b"{", Word::OpenBrace),
    (b"}", Word::CloseBrace),
    (b",", Word::Comma),
    (b":", Word::Colon),
    (b";", Word::Semicolon),
    (b".", Word::Dot),
    (b"?", Word::Question),
    (b"+=", Word::PlusEqual),
    (b"-=", Word::MinusEqual),
    (b"*=", Word::StarEqual),
    (b"\\=", Word::BackslashEqual),
    (b"++", Word::PlusPlus),
    (b"--", Word::MinusMinus),
];

/// Whether two spellings differ at most in the case of their ASCII letters.
#[tactic(auto, unfolding(crate::specs::Words::is_alike))]
fn is_alike(a: &[u8], b: &[u8]) -> bool
    ensures { result ≡ spec.is_alike a.now b.now }
{
    a.eq_ignore_ascii_case(b)
}

/// The word beside a spelling in a table, whatever the case of its letters, or another word where it isn't there.
fn word_beside(mut rows: &[(&[u8], Word)], other: Word, spelling: &[u8]) -> Word
    ensures { result ≡ spec.word_beside (map (λ row. (row.0.now, row.1)) rows.entry.now) other spelling.now }
{
    while let [row, rest @ ..] = rows {
        if is_alike(row.0, spelling) {
            return row.1;
        }
        rows = rest;
    }
    other
}

fn keyword(spelling: &[u8]) -> Word
    ensures { result ≡ spec.word_beside spec.keywords Word.End spelling.now }
{
    word_beside(&KEYWORDS, Word::End, spelling)
}

fn name(spelling: &[u8]) -> Word
    ensures { result ≡ spec.word_beside spec.contextual Word.Name spelling.now }
{
    word_beside(&CONTEXTUAL, Word::Name, spelling)
}

fn sign(spelling: &[u8]) -> Word
    ensures { result ≡ spec.word_beside spec.signs Word.End spelling.now }
{
    word_beside(&SIGNS, Word::End, spelling)
}

/// The word of a token. A keyword or sign that is spelled as none has the word `End`, which no form asks for.
///
/// Source: BrightScript Language Reference, "Reserved Words": they are not case sensitive.
#[tactic(auto, unfolding(crate::specs::Words::word_of, crate::specs::Words::word_spelled))]
pub fn word_of(token: &Token<'_>) -> Word
    ensures { result ≡ spec.word_of (tok_of token.now) }
{
    match token.kind {
        TokenKind::Newline => Word::Newline,
        TokenKind::Name => name(token.slice),
        TokenKind::Keyword => keyword(token.slice),
        TokenKind::Number => Word::Number,
        TokenKind::Text => Word::Text,
        TokenKind::Sign => sign(token.slice),
    }
}

/// The place of a token.
pub fn place_of(token: &Token<'_>) -> Place
    ensures { result ≡ spec.place_of (tok_of token.now) }
{
    Place {
        line: token.line,
        column: token.column,
    }
}

/// Whether two words are the same.
#[tactic(auto, unfolding(crate::specs::Words::same_word))]
pub fn same_word(a: Word, b: Word) -> bool
    ensures { result ≡ spec.same_word a b }
{
    a == b
}

/// A name, whether it has a meaning of its own in some form or not.
#[tactic(auto, unfolding(crate::specs::Words::same_word))]
pub fn is_name(word: Word) -> bool
    ensures { result ≡ spec.is_name word }
{
    matches!(
        word,
        Word::Name
            | Word::As
            | Word::Each
            | Word::In
            | Word::Integer
            | Word::LongInteger
            | Word::String
            | Word::Boolean
            | Word::Object
            | Word::Dynamic
            | Word::Interface
            | Word::Void
    )
}

#[tactic(auto, unfolding(crate::specs::Words::same_word))]
fn is_statement_keyword(word: Word) -> bool
    ensures { result ≡ spec.is_statement_keyword word }
{
    matches!(
        word,
        Word::Else
            | Word::ElseIf
            | Word::EndWord
            | Word::EndFor
            | Word::EndFunction
            | Word::EndIf
            | Word::EndSub
            | Word::EndWhile
            | Word::Exit
            | Word::ExitFor
            | Word::ExitWhile
            | Word::For
            | Word::If
            | Word::Next
            | Word::Print
            | Word::Return
    )
}

#[tactic(auto, unfolding(crate::specs::Words::same_word))]
fn is_other_keyword(word: Word) -> bool
    ensures { result ≡ spec.is_other_keyword word }
{
    matches!(
        word,
        Word::And
            | Word::False
            | Word::Function
            | Word::Goto
            | Word::Invalid
            | Word::Let
            | Word::Mod
            | Word::Not
            | Word::Or
            | Word::Step
            | Word::Stop
            | Word::Sub
            | Word::Then
            | Word::To
            | Word::True
            | Word::While
    )
}

/// A keyword, which no name may be.
pub fn is_keyword(word: Word) -> bool
    ensures { result ≡ spec.is_keyword word }
{
    is_statement_keyword(word) || is_other_keyword(word)
}

/// What may stand behind a dot or before a colon: a name or a keyword.
pub fn is_word(word: Word) -> bool
    ensures { result ≡ spec.is_word word }
{
    is_name(word) || is_keyword(word)
}
