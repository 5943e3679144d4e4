//! Words between the parts of statements, and statements of words alone.
ghost use Rattle.std.specs.Prelude.{◌≡◌, [], ◌∷◌};
ghost use Rattle.std.specs.Option.{option_map, option_to_list};
ghost use Rattle.brs_tokens.specs.Tok.{tok_of};
ghost use Rattle.grammar_rules.specs.Reading as reading;
ghost use Rattle.grammar_rules.specs.Reading.{Outcome, and_then};
ghost use Rattle.grammar_rules.specs.Words.{same_word};
ghost use Rattle.grammar_rules.specs.declared.word.Word.TheVariants as word;
ghost use Rattle.brs_grammar.specs.ReadStatementWords as spec;
ghost use Rattle.token_cursor.specs.Reads.{Gives, Reads};

use crate::signs::expect_type;
use brs_grammar::signs::type_of;
use brs_grammar::tree::{LoopKind, Simple, TypeWord};
use brs_tokens::{Place, Token};
use grammar_rules::{Word, place_of, word_of};
use token_cursor::{Cursor, ParseError};

/// What ends a statement: a line end or a colon.
#[tactic(auto, unfolding(brs_grammar::specs::ReadStatementWords::separator, grammar_rules::specs::Words::same_word))]
pub fn separator<'a>(tokens: &mut Cursor<'_, 'a>) -> Result<Token<'a>, ParseError>
    ensures { Gives tok_of (spec.separator tokens.old) result tokens.new }
{
    match tokens.peek() {
        Word::Newline => tokens.expect(Word::Newline),
        _ => tokens.expect(Word::Colon),
    }
}

/// `next`, `end for` or `endfor`: its last token.
#[tactic(auto, unfolding(brs_grammar::specs::ReadStatementWords::end_for, grammar_rules::specs::Words::same_word))]
pub fn end_for<'a>(tokens: &mut Cursor<'_, 'a>) -> Result<Token<'a>, ParseError>
    ensures { Gives tok_of (spec.end_for tokens.old) result tokens.new }
{
    match tokens.peek() {
        Word::Next => tokens.expect(Word::Next),
        Word::EndWord => {
            tokens.expect(Word::EndWord)?;
            tokens.expect(Word::For)
        }
        _ => tokens.expect(Word::EndFor),
    }
}

/// `end while` or `endwhile`: its last token.
#[tactic(auto, unfolding(brs_grammar::specs::ReadStatementWords::end_while, grammar_rules::specs::Words::same_word))]
pub fn end_while<'a>(tokens: &mut Cursor<'_, 'a>) -> Result<Token<'a>, ParseError>
    ensures { Gives tok_of (spec.end_while tokens.old) result tokens.new }
{
    match tokens.peek() {
        Word::EndWord => {
            tokens.expect(Word::EndWord)?;
            tokens.expect(Word::While)
        }
        _ => tokens.expect(Word::EndWhile),
    }
}

/// `end if` or `endif`: its last token.
#[tactic(auto, unfolding(brs_grammar::specs::ReadStatementWords::end_if, grammar_rules::specs::Words::same_word))]
pub fn end_if<'a>(tokens: &mut Cursor<'_, 'a>) -> Result<Token<'a>, ParseError>
    ensures { Gives tok_of (spec.end_if tokens.old) result tokens.new }
{
    match tokens.peek() {
        Word::EndWord => {
            tokens.expect(Word::EndWord)?;
            tokens.expect(Word::If)
        }
        _ => tokens.expect(Word::EndIf),
    }
}

/// `then`, which may be left out.
#[tactic(auto, unfolding(brs_grammar::specs::ReadStatementWords::then_, grammar_rules::specs::Words::same_word))]
pub fn then_word<'a>(tokens: &mut Cursor<'_, 'a>) -> Result<Option<Token<'a>>, ParseError>
    ensures { Gives (option_map tok_of) (spec.then_ tokens.old) result tokens.new }
{
    match tokens.peek() {
        Word::Then => {
            let token = tokens.expect(Word::Then)?;
            Ok(Some(token))
        }
        _ => Ok(None),
    }
}

#[tactic(auto, unfolding(brs_grammar::specs::ReadStatementWords::as_type))]
fn as_type(tokens: &mut Cursor<'_, '_>) -> Result<TypeWord, ParseError>
    ensures { Reads (spec.as_type tokens.old) result tokens.new }
{
    tokens.expect(Word::As)?;
    let token = expect_type(tokens)?;
    Ok(type_of(word_of(&token)))
}

/// `as` and a type, or nothing.
#[tactic(auto, unfolding(grammar_rules::specs::Words::same_word))]
pub fn optional_type(tokens: &mut Cursor<'_, '_>) -> Result<Option<TypeWord>, ParseError>
    ensures { Reads (reading.optional (same_word word.As) spec.as_type tokens.old) result tokens.new }
{
    match tokens.peek() {
        Word::As => {
            let kind = as_type(tokens)?;
            Ok(Some(kind))
        }
        _ => Ok(None),
    }
}

/// What was read, where a separator follows it.
pub fn with_separator<A: Drop>(
    tokens: &mut Cursor<'_, '_>,
    read: Result<A, ParseError>,
) -> Result<Option<A>, ParseError>
    ensures { (outcome : Outcome A) → Reads outcome read tokens.old → Gives option_to_list (and_then outcome (λ x ts. and_then (spec.separator ts) (λ _. reading.pure (x ∷ [])))) result tokens.new }
{
    let item = read?;
    separator(tokens)?;
    Ok(Some(item))
}

/// What was read, where a line end follows it.
pub fn with_newline<A: Drop>(
    tokens: &mut Cursor<'_, '_>,
    read: Result<A, ParseError>,
) -> Result<Option<A>, ParseError>
    ensures { (outcome : Outcome A) → Reads outcome read tokens.old → Gives option_to_list (and_then outcome (λ x ts. and_then (reading.one (same_word word.Newline) ts) (λ _. reading.pure (x ∷ [])))) result tokens.new }
{
    let item = read?;
    tokens.expect(Word::Newline)?;
    Ok(Some(item))
}

#[tactic(auto, unfolding(brs_grammar::specs::ReadStatementWords::exit_for))]
fn exit_for(tokens: &mut Cursor<'_, '_>, place: Place) -> Result<Simple, ParseError>
    ensures { Reads (spec.exit_for place tokens.old) result tokens.new }
{
    tokens.expect(Word::For)?;
    Ok(Simple::Exit(place, LoopKind::For))
}

#[tactic(auto, unfolding(brs_grammar::specs::ReadStatementWords::exit_while))]
fn exit_while(tokens: &mut Cursor<'_, '_>, place: Place) -> Result<Simple, ParseError>
    ensures { Reads (spec.exit_while place tokens.old) result tokens.new }
{
    tokens.expect(Word::While)?;
    Ok(Simple::Exit(place, LoopKind::While))
}

#[tactic(auto, unfolding(brs_grammar::specs::ReadStatementWords::exit_two, grammar_rules::specs::Words::same_word))]
fn exit_two(tokens: &mut Cursor<'_, '_>) -> Result<Simple, ParseError>
    ensures { Reads (spec.exit_two tokens.old) result tokens.new }
{
    let token = tokens.expect(Word::Exit)?;
    match tokens.peek() {
        Word::For => exit_for(tokens, place_of(&token)),
        _ => exit_while(tokens, place_of(&token)),
    }
}

#[tactic(auto, unfolding(brs_grammar::specs::ReadStatementWords::exit_for_word))]
fn exit_for_word(tokens: &mut Cursor<'_, '_>) -> Result<Simple, ParseError>
    ensures { Reads (spec.exit_for_word tokens.old) result tokens.new }
{
    let token = tokens.expect(Word::ExitFor)?;
    Ok(Simple::Exit(place_of(&token), LoopKind::For))
}

#[tactic(auto, unfolding(brs_grammar::specs::ReadStatementWords::exit_while_word))]
fn exit_while_word(tokens: &mut Cursor<'_, '_>) -> Result<Simple, ParseError>
    ensures { Reads (spec.exit_while_word tokens.old) result tokens.new }
{
    let token = tokens.expect(Word::ExitWhile)?;
    Ok(Simple::Exit(place_of(&token), LoopKind::While))
}

/// An `exit`.
#[tactic(auto, unfolding(brs_grammar::specs::ReadStatementWords::exit, grammar_rules::specs::Words::same_word))]
pub fn exit(tokens: &mut Cursor<'_, '_>) -> Result<Simple, ParseError>
    ensures { Reads (spec.exit tokens.old) result tokens.new }
{
    match tokens.peek() {
        Word::Exit => exit_two(tokens),
        Word::ExitFor => exit_for_word(tokens),
        _ => exit_while_word(tokens),
    }
}
