//! The smallest forms: names, literals, keys, line ends and the ends of functions.
ghost use Rattle.std.specs.Prelude.{◌≡◌, OnOk, IfOk};
ghost use Rattle.std.specs.Option.{option_to_list};
ghost use Rattle.brs_tokens.specs.Tok.{tok_of};
ghost use Rattle.brs_grammar.specs.Expressions as grammar;
ghost use Rattle.brs_grammar.specs.ReadLeaves as spec;
ghost use Rattle.token_cursor.specs.Reads.{Gives, Reads};

use brs_grammar::tree::{Key, Name, Postfix, Primary};
use brs_tokens::Token;
use grammar_rules::{Word, is_word, place_of, same_word};
use sqlite_items::Items;
use std::alloc::{AllocError, Global};
use token_cursor::{Cursor, ParseError, many};

/// The name that a token spells.
pub fn name_of(alloc: Global, token: &Token<'_>) -> Result<Name, AllocError>
    ensures { IfOk result (λ name. name ≡ grammar.name_of (tok_of token.now)) }
{
    Ok(Name {
        place: place_of(token),
        text: Items::from_slice(alloc, token.slice)?,
    })
}

// ---- line ends

/// A line end, where there is nothing to keep.
#[tactic(auto, unfolding(brs_grammar::specs::ReadLeaves::blank))]
pub fn blank<A: Drop>(tokens: &mut Cursor<'_, '_>) -> Result<Option<A>, ParseError>
    ensures { Gives option_to_list (spec.blank tokens.old) result tokens.new }
{
    tokens.expect(Word::Newline)?;
    Ok(None)
}

/// Any number of line ends.
#[tactic(auto, unfolding(brs_grammar::specs::ReadLeaves::newlines))]
pub fn newlines(alloc: Global, tokens: &mut Cursor<'_, '_>) -> Result<Items<()>, ParseError>
    ensures { Reads (spec.newlines tokens.old) result tokens.new }
{
    many(
        alloc,
        tokens,
        |word| same_word(Word::Newline, word),
        |tokens| blank(tokens),
    )
}

/// A comma, and line ends behind it.
#[tactic(auto, unfolding(brs_grammar::specs::ReadLeaves::comma_gap))]
fn comma_gap<A: Drop>(alloc: Global, tokens: &mut Cursor<'_, '_>) -> Result<Items<A>, ParseError>
    ensures { Reads (spec.comma_gap tokens.old) result tokens.new }
{
    tokens.expect(Word::Comma)?;
    newlines(alloc, tokens)?;
    Ok(Items::new(alloc))
}

/// Line ends, and a comma with line ends behind it where one follows.
#[tactic(auto, unfolding(brs_grammar::specs::ReadLeaves::newline_gap, grammar_rules::specs::Words::same_word))]
fn newline_gap<A: Drop>(alloc: Global, tokens: &mut Cursor<'_, '_>) -> Result<Items<A>, ParseError>
    ensures { Reads (spec.newline_gap tokens.old) result tokens.new }
{
    tokens.expect(Word::Newline)?;
    newlines(alloc, tokens)?;
    match tokens.peek() {
        Word::Comma => comma_gap(alloc, tokens),
        _ => Ok(Items::new(alloc)),
    }
}

/// What stands between two items: a comma, or line ends, or both.
#[tactic(auto, unfolding(brs_grammar::specs::ReadLeaves::gap, grammar_rules::specs::Words::same_word))]
pub fn gap<A: Drop>(alloc: Global, tokens: &mut Cursor<'_, '_>) -> Result<Items<A>, ParseError>
    ensures { Reads (spec.gap tokens.old) result tokens.new }
{
    match tokens.peek() {
        Word::Comma => comma_gap(alloc, tokens),
        _ => newline_gap(alloc, tokens),
    }
}

// ---- the ends of functions

/// `end function` or `endfunction`: its last token.
#[tactic(auto, unfolding(brs_grammar::specs::ReadLeaves::end_function, grammar_rules::specs::Words::same_word))]
pub fn end_function<'a>(tokens: &mut Cursor<'_, 'a>) -> Result<Token<'a>, ParseError>
    ensures { Gives tok_of (spec.end_function tokens.old) result tokens.new }
{
    match tokens.peek() {
        Word::EndWord => {
            tokens.expect(Word::EndWord)?;
            tokens.expect(Word::Function)
        }
        _ => tokens.expect(Word::EndFunction),
    }
}

/// `end sub` or `endsub`: its last token.
#[tactic(auto, unfolding(brs_grammar::specs::ReadLeaves::end_sub, grammar_rules::specs::Words::same_word))]
pub fn end_sub<'a>(tokens: &mut Cursor<'_, 'a>) -> Result<Token<'a>, ParseError>
    ensures { Gives tok_of (spec.end_sub tokens.old) result tokens.new }
{
    match tokens.peek() {
        Word::EndWord => {
            tokens.expect(Word::EndWord)?;
            tokens.expect(Word::Sub)
        }
        _ => tokens.expect(Word::EndSub),
    }
}

// ---- primary expressions without parts

/// A number literal.
#[tactic(auto, unfolding(brs_grammar::specs::ReadLeaves::number))]
pub fn number(alloc: Global, tokens: &mut Cursor<'_, '_>) -> Result<Primary, ParseError>
    ensures { Reads (spec.number tokens.old) result tokens.new }
{
    let token = tokens.expect(Word::Number)?;
    let digits = Items::from_slice(alloc, token.slice)?;
    Ok(Primary::Number(place_of(&token), digits))
}

/// A text literal.
#[tactic(auto, unfolding(brs_grammar::specs::ReadLeaves::text))]
pub fn text(alloc: Global, tokens: &mut Cursor<'_, '_>) -> Result<Primary, ParseError>
    ensures { Reads (spec.text tokens.old) result tokens.new }
{
    let token = tokens.expect(Word::Text)?;
    let quoted = Items::from_slice(alloc, token.slice)?;
    Ok(Primary::Text(place_of(&token), quoted))
}

/// The literal `true`.
#[tactic(auto, unfolding(brs_grammar::specs::ReadLeaves::true_))]
pub fn true_value(tokens: &mut Cursor<'_, '_>) -> Result<Primary, ParseError>
    ensures { Reads (spec.true_ tokens.old) result tokens.new }
{
    let token = tokens.expect(Word::True)?;
    Ok(Primary::True(place_of(&token)))
}

/// The literal `false`.
#[tactic(auto, unfolding(brs_grammar::specs::ReadLeaves::false_))]
pub fn false_value(tokens: &mut Cursor<'_, '_>) -> Result<Primary, ParseError>
    ensures { Reads (spec.false_ tokens.old) result tokens.new }
{
    let token = tokens.expect(Word::False)?;
    Ok(Primary::False(place_of(&token)))
}

/// The literal `invalid`.
#[tactic(auto, unfolding(brs_grammar::specs::ReadLeaves::invalid))]
pub fn invalid(tokens: &mut Cursor<'_, '_>) -> Result<Primary, ParseError>
    ensures { Reads (spec.invalid tokens.old) result tokens.new }
{
    let token = tokens.expect(Word::Invalid)?;
    Ok(Primary::Invalid(place_of(&token)))
}

/// The name of a variable.
#[tactic(auto, unfolding(brs_grammar::specs::ReadLeaves::variable))]
pub fn variable(alloc: Global, tokens: &mut Cursor<'_, '_>) -> Result<Primary, ParseError>
    ensures { Reads (spec.variable tokens.old) result tokens.new }
{
    let token = tokens.expect_name()?;
    let name = name_of(alloc, &token)?;
    Ok(Primary::Variable(name))
}

// ---- keys and members

/// A name or keyword as a key.
#[tactic(auto, unfolding(brs_grammar::specs::ReadLeaves::word_key))]
fn word_key(alloc: Global, tokens: &mut Cursor<'_, '_>) -> Result<Key, ParseError>
    ensures { Reads (spec.word_key tokens.old) result tokens.new }
{
    let token = tokens.expect_word()?;
    let name = name_of(alloc, &token)?;
    Ok(Key::Word(name))
}

/// A text in quotes as a key.
#[tactic(auto, unfolding(brs_grammar::specs::ReadLeaves::quoted_key))]
fn quoted_key(alloc: Global, tokens: &mut Cursor<'_, '_>) -> Result<Key, ParseError>
    ensures { Reads (spec.quoted_key tokens.old) result tokens.new }
{
    let token = tokens.expect(Word::Text)?;
    let quoted = Items::from_slice(alloc, token.slice)?;
    Ok(Key::Quoted(place_of(&token), quoted))
}

/// The key of a pair.
#[tactic(auto, unfolding(brs_grammar::specs::ReadLeaves::a_key))]
pub fn key(alloc: Global, tokens: &mut Cursor<'_, '_>) -> Result<Key, ParseError>
    ensures { Reads (spec.a_key tokens.old) result tokens.new }
{
    if is_word(tokens.peek()) {
        word_key(alloc, tokens)
    } else {
        quoted_key(alloc, tokens)
    }
}

/// A dot and a word.
#[tactic(auto, unfolding(brs_grammar::specs::ReadLeaves::member))]
pub fn member(alloc: Global, tokens: &mut Cursor<'_, '_>) -> Result<Option<Postfix>, ParseError>
    ensures { Gives option_to_list (spec.member tokens.old) result tokens.new }
{
    let dot = tokens.expect(Word::Dot)?;
    let word = tokens.expect_word()?;
    let name = name_of(alloc, &word)?;
    Ok(Some(Postfix::Member(place_of(&dot), name)))
}
