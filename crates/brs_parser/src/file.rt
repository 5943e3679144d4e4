//! The named functions of a file.
ghost use Rattle.std.specs.Prelude.{◌≡◌};
ghost use Rattle.std.specs.Option.{option_to_list};
ghost use Rattle.brs_grammar.specs.Grammar.{file_number};
ghost use Rattle.brs_grammar.specs.ReadFunctions as spec;
ghost use Rattle.brs_grammar.specs.ReadFunctions.{at};
ghost use Rattle.token_cursor.specs.Endings.{ending_of};
ghost use Rattle.token_cursor.specs.Reads.{Gives, Reads};

use crate::nesting::inside;
use brs_grammar::classes::begins_named;
use brs_grammar::tree::{NamedFunction, Rest};
use expression_parser::{Level, blank, end_function, end_sub, name_of};
use grammar_rules::{Word, place_of};
use sqlite_items::Items;
use statement_parser::Statements;
use std::alloc::Global;
use token_cursor::{Cursor, EndedTurns, Held, ParseError, ended, keep};

/// How many forms may stand inside one another in a file.
const FILE_DEPTH: usize = 64;

fn rest(alloc: Global, tokens: &mut Cursor<'_, '_>) -> Result<Rest, ParseError>
    ensures { Reads (at spec.a_rest file_number tokens.old) result tokens.new }
{
    let level = Level {
        alloc,
        depth: FILE_DEPTH,
        inside,
    };
    Statements { level }.rest(tokens)
}

#[tactic(auto, unfolding(brs_grammar::specs::ReadFunctions::function))]
fn function(alloc: Global, tokens: &mut Cursor<'_, '_>) -> Result<NamedFunction, ParseError>
    ensures { Reads (at spec.function file_number tokens.old) result tokens.new }
{
    let token = tokens.expect(Word::Function)?;
    let spelled = tokens.expect_name()?;
    let name = name_of(alloc, &spelled)?;
    let rest = Held::new(rest(alloc, tokens)?);
    end_function(tokens)?;
    Ok(NamedFunction::Function(place_of(&token), name, rest.into_inner()))
}

#[tactic(auto, unfolding(brs_grammar::specs::ReadFunctions::sub))]
fn sub(alloc: Global, tokens: &mut Cursor<'_, '_>) -> Result<NamedFunction, ParseError>
    ensures { Reads (at spec.sub file_number tokens.old) result tokens.new }
{
    let token = tokens.expect(Word::Sub)?;
    let spelled = tokens.expect_name()?;
    let name = name_of(alloc, &spelled)?;
    let rest = Held::new(rest(alloc, tokens)?);
    end_sub(tokens)?;
    Ok(NamedFunction::Sub(place_of(&token), name, rest.into_inner()))
}

#[tactic(auto, unfolding(brs_grammar::specs::ReadFunctions::named_function, grammar_rules::specs::Words::same_word))]
fn named_function(alloc: Global, tokens: &mut Cursor<'_, '_>) -> Result<NamedFunction, ParseError>
    ensures { Reads (at spec.named_function file_number tokens.old) result tokens.new }
{
    match tokens.peek() {
        Word::Function => function(alloc, tokens),
        _ => sub(alloc, tokens),
    }
}

/// The line end behind a named function.
#[tactic(auto, unfolding(brs_grammar::specs::ReadFunctions::named_line))]
fn named_line(
    tokens: &mut Cursor<'_, '_>,
    function: NamedFunction,
) -> Result<Option<NamedFunction>, ParseError>
    ensures { Gives option_to_list (at spec.named_line file_number function tokens.old) result tokens.new }
{
    let function = Held::new(function);
    tokens.expect(Word::Newline)?;
    Ok(Some(function.into_inner()))
}

/// The named functions with their line ends, and the last one where no line end follows.
#[tactic(auto, unfolding(brs_grammar::specs::ReadFunctions::file_ending))]
fn file_ending(
    alloc: Global,
    tokens: &mut Cursor<'_, '_>,
) -> Result<EndedTurns<NamedFunction, NamedFunction>, ParseError>
    ensures { Gives ending_of (at spec.file_ending file_number tokens.old) result tokens.new }
{
    ended(
        alloc,
        tokens,
        Word::Newline,
        |tokens| blank(tokens),
        begins_named,
        |tokens| named_function(alloc, tokens),
        Word::Newline,
        |tokens, function| named_line(tokens, function),
        |_, function| Ok(function),
    )
}

#[tactic(auto, unfolding(brs_grammar::specs::ReadFunctions::functions))]
fn functions(alloc: Global, tokens: &mut Cursor<'_, '_>) -> Result<Items<NamedFunction>, ParseError>
    ensures { Reads (at spec.functions file_number tokens.old) result tokens.new }
{
    let ending = file_ending(alloc, tokens)?;
    let mut functions = ending.turns;
    keep(&mut functions, ending.last)?;
    Ok(functions)
}

/// The named functions of a whole file, which nothing may follow.
#[tactic(auto, unfolding(brs_grammar::specs::ReadFunctions::file, grammar_rules::specs::Reading::whole, grammar_rules::specs::Reading::finish))]
pub fn file(alloc: Global, tokens: &mut Cursor<'_, '_>) -> Result<Items<NamedFunction>, ParseError>
    ensures { Reads (spec.file tokens.old) result tokens.new }
{
    let functions = Held::new(functions(alloc, tokens)?);
    tokens.end()?;
    Ok(functions.into_inner())
}
