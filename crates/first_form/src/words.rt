//! What the tokens of the first form tell.
ghost use Rattle.std.specs.Prelude.{◌≡◌, pos, true, false, IsTrue, MatchOption};
ghost use Rattle.std.specs.Option.{option_map};
ghost use Rattle.std.specs.Str.{all_ascii_digits};
ghost use Rattle.brs_tokens.specs.Tok.{tok_of};
ghost use Rattle.first_form.specs.FirstForm as form;
ghost use Rattle.first_form.specs.FirstStop.{Tells};

use crate::cursor::Stop;
use crate::tree::{Operand, Sign};
use brs_tokens::{Token, TokenKind};
use chan_values::{Text, fold_name};
use std::alloc::Global;

pub(crate) fn is_newline(token: &Token<'_>) -> bool
    ensures { result ≡ form.is_newline (tok_of token.now) }
{
    matches!(token.kind, TokenKind::Newline)
}

pub(crate) fn is_keyword(token: &Token<'_>, word: &[u8]) -> bool
    ensures { result ≡ form.is_keyword word.now (tok_of token.now) }
{
    matches!(token.kind, TokenKind::Keyword) && token.slice.eq_ignore_ascii_case(word)
}

pub(crate) fn is_named(token: &Token<'_>, word: &[u8]) -> bool
    ensures { result ≡ form.is_named word.now (tok_of token.now) }
{
    matches!(token.kind, TokenKind::Name) && token.slice.eq_ignore_ascii_case(word)
}

pub(crate) fn is_sign(token: &Token<'_>, spelling: &[u8]) -> bool
    ensures { result ≡ form.is_sign spelling.now (tok_of token.now) }
{
    matches!(token.kind, TokenKind::Sign) && token.slice == spelling
}

/// The bytes as a text, where they are ASCII.
fn ascii_text(bytes: &[u8]) -> Option<&str>
    ensures { MatchOption result
        (form.all_ascii bytes.now ≡ false)
        (λ t. (t.now ≡ bytes.now) × (form.all_ascii bytes.now ≡ true)) }
{
    if !bytes.is_ascii() {
        return None;
    }
    match str::from_utf8(bytes) {
        Ok(text) => Some(text),
        Err(_) => unreachable!(),
    }
}

fn are_digits(bytes: &[u8]) -> bool
    ensures { result ≡ all_ascii_digits bytes.now }
{
    bytes.iter().all(|b| b.is_ascii_digit())
}

/// The number of decimal digits, up to 2,147,483,647.
fn number_value(digits: &[u8]) -> Option<i32>
    ensures { result ≡ option_map pos (form.number_value digits.now) }
{
    if !are_digits(digits) {
        return None;
    }
    match ascii_text(digits) {
        Some(text) => parsed(text),
        None => None,
    }
}

fn parsed(digits: &str) -> Option<i32>
    requires { IsTrue (all_ascii_digits digits.now) }
    ensures { result ≡ option_map pos (form.number_value digits.now) }
{
    digits.parse::<i32>().ok()
}

/// A name, folded.
fn name_value(alloc: Global, slice: &[u8]) -> Result<Text, Stop>
    ensures { Tells (form.name_value slice.now) result }
{
    match ascii_text(slice) {
        Some(name) => {
            let name = fold_name(alloc, name.as_bytes())?;
            Ok(name)
        }
        None => Err(Stop::NotFirst),
    }
}

/// What stands between the quotes of a text.
fn words_value(alloc: Global, slice: &[u8]) -> Result<Text, Stop>
    ensures { Tells (form.words_value slice.now) result }
{
    if slice.len() < 2 {
        return Err(Stop::NotFirst);
    }
    let words = &slice[1..slice.len() - 1];
    match ascii_text(words) {
        Some(words) => {
            let mut text = Text::new(alloc);
            text.push_str(words)?;
            Ok(text)
        }
        None => Err(Stop::NotFirst),
    }
}

pub(crate) fn name_of(alloc: Global, token: &Token<'_>) -> Result<Text, Stop>
    ensures { Tells (form.name_of (tok_of token.now)) result }
{
    match token.kind {
        TokenKind::Name => name_value(alloc, token.slice),
        _ => Err(Stop::NotFirst),
    }
}

pub(crate) fn words_of(alloc: Global, token: &Token<'_>) -> Result<Text, Stop>
    ensures { Tells (form.words_of (tok_of token.now)) result }
{
    match token.kind {
        TokenKind::Text => words_value(alloc, token.slice),
        _ => Err(Stop::NotFirst),
    }
}

pub(crate) fn sign_of(token: &Token<'_>) -> Result<Sign, Stop>
    ensures { Tells (form.sign_of (tok_of token.now)) result }
{
    if is_sign(token, b"+") {
        Ok(Sign::Plus)
    } else if is_sign(token, b"-") {
        Ok(Sign::Minus)
    } else {
        Err(Stop::NotFirst)
    }
}

pub(crate) fn operand_of(alloc: Global, token: &Token<'_>) -> Result<Operand, Stop>
    ensures { Tells (form.operand_of (tok_of token.now)) result }
{
    match token.kind {
        TokenKind::Number => match number_value(token.slice) {
            Some(n) => Ok(Operand::Number(n)),
            None => Err(Stop::NotFirst),
        },
        TokenKind::Name => {
            let name = name_value(alloc, token.slice)?;
            Ok(Operand::Name(name))
        }
        _ => Err(Stop::NotFirst),
    }
}
