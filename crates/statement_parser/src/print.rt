//! The statement `print`.
ghost use Rattle.std.specs.Prelude.{◌≡◌, []};
ghost use Rattle.std.specs.Option.{option_to_list};
ghost use Rattle.token_cursor.specs.Reads.{Gives, Reads};
ghost use Rattle.brs_grammar.specs.ReadStatements as spec;
ghost use Rattle.brs_grammar.specs.ReadFunctions.{at};
ghost use Rattle.expression_parser.specs.Nests.{Nests};
ghost use Rattle.brs_tokens.specs.Tok.{tok_of};
ghost use Rattle.grammar_rules.specs.Reading as reading;
ghost use Rattle.grammar_rules.specs.Words.{same_word};
ghost use Rattle.grammar_rules.specs.declared.word.Word.TheVariants as word;
ghost use Rattle.brs_grammar.specs.ReadLeaves as begins;
ghost use Rattle.brs_grammar.specs.ReadStatementWords as words;

use crate::statements::Statements;
use brs_grammar::classes::{begins_expression, begins_print_separator};
use brs_grammar::tree::{PrintItem, Simple};
use brs_tokens::Token;
use expression_parser::{Inner, Part};
use grammar_rules::{Word, place_of};
use sqlite_items::Items;
use std::alloc::Global;
use token_cursor::{Cursor, Held, ParseError, many, prepend, trail};

#[tactic(auto, unfolding(brs_grammar::specs::ReadStatementWords::semicolon))]
fn semicolon(tokens: &mut Cursor<'_, '_>) -> Result<Option<PrintItem>, ParseError>
    ensures { Gives option_to_list (words.semicolon tokens.old) result tokens.new }
{
    tokens.expect(Word::Semicolon)?;
    Ok(Some(PrintItem::Semicolon))
}

#[tactic(auto, unfolding(brs_grammar::specs::ReadStatementWords::comma))]
fn comma(tokens: &mut Cursor<'_, '_>) -> Result<Option<PrintItem>, ParseError>
    ensures { Gives option_to_list (words.comma tokens.old) result tokens.new }
{
    tokens.expect(Word::Comma)?;
    Ok(Some(PrintItem::Comma))
}

#[tactic(auto, unfolding(brs_grammar::specs::ReadStatementWords::print_separator, grammar_rules::specs::Words::same_word))]
fn print_separator(tokens: &mut Cursor<'_, '_>) -> Result<Option<PrintItem>, ParseError>
    ensures { Gives option_to_list (words.print_separator tokens.old) result tokens.new }
{
    match tokens.peek() {
        Word::Semicolon => semicolon(tokens),
        _ => comma(tokens),
    }
}

#[tactic(auto, unfolding(brs_grammar::specs::ReadStatementWords::more_separators))]
fn more_separators(
    alloc: Global,
    tokens: &mut Cursor<'_, '_>,
) -> Result<Items<PrintItem>, ParseError>
    ensures { Reads (words.more_separators tokens.old) result tokens.new }
{
    many(alloc, tokens, begins_print_separator, |tokens| {
        print_separator(tokens)
    })
}

#[tactic(auto, unfolding(brs_grammar::specs::ReadStatementWords::print_separators))]
fn print_separators(
    alloc: Global,
    tokens: &mut Cursor<'_, '_>,
) -> Result<Items<PrintItem>, ParseError>
    ensures { Reads (words.print_separators tokens.old) result tokens.new }
{
    let first = Held::new(print_separator(tokens)?);
    let more = more_separators(alloc, tokens)?;
    let all = prepend(alloc, first.into_inner(), more)?;
    Ok(all)
}

#[tactic(auto, unfolding(grammar_rules::specs::Words::same_word))]
fn print_word<'a>(tokens: &mut Cursor<'_, 'a>) -> Result<Token<'a>, ParseError>
    ensures { Gives tok_of (reading.choose (same_word word.Print) (reading.one (same_word word.Print)) (reading.one (same_word word.Question)) tokens.old) result tokens.new }
{
    match tokens.peek() {
        Word::Print => tokens.expect(Word::Print),
        _ => tokens.expect(Word::Question),
    }
}

impl<F: Fn(Global, &mut Cursor<'_, '_>, usize, Part) -> Result<Inner, ParseError>> Statements<F> {
    #[tactic(auto, unfolding(brs_grammar::specs::ReadStatements::print_value))]
    fn print_value(&self, tokens: &mut Cursor<'_, '_>) -> Result<Option<PrintItem>, ParseError>
        requires { Nests self.now.level.depth (F.pre self.now.level.inside) (F.post self.now.level.inside) }
        ensures { Gives option_to_list (at spec.print_value self.now.level.depth tokens.old) result tokens.new }
    {
        let value = self.level.expression(tokens)?;
        Ok(Some(PrintItem::Value(value)))
    }

    #[tactic(auto, unfolding(brs_grammar::specs::ReadStatements::next_values))]
    fn next_values(&self, tokens: &mut Cursor<'_, '_>) -> Result<Items<PrintItem>, ParseError>
        requires { Nests self.now.level.depth (F.pre self.now.level.inside) (F.post self.now.level.inside) }
        ensures { Reads (at spec.next_values self.now.level.depth tokens.old) result tokens.new }
    {
        trail(
            self.level.alloc,
            tokens,
            begins_print_separator,
            |tokens| print_separators(self.level.alloc, tokens),
            begins_expression,
            |tokens| self.print_value(tokens),
        )
    }

    #[tactic(auto, unfolding(brs_grammar::specs::ReadStatements::print_values))]
    fn print_values(&self, tokens: &mut Cursor<'_, '_>) -> Result<Items<PrintItem>, ParseError>
        requires { Nests self.now.level.depth (F.pre self.now.level.inside) (F.post self.now.level.inside) }
        ensures { Reads (at spec.print_values self.now.level.depth tokens.old) result tokens.new }
    {
        let first = Held::new(self.print_value(tokens)?);
        let more = self.next_values(tokens)?;
        let all = prepend(self.level.alloc, first.into_inner(), more)?;
        Ok(all)
    }

    fn optional_values(&self, tokens: &mut Cursor<'_, '_>) -> Result<Items<PrintItem>, ParseError>
        requires { Nests self.now.level.depth (F.pre self.now.level.inside) (F.post self.now.level.inside) }
        ensures { Reads (reading.choose begins.begins_expression (at spec.print_values self.now.level.depth) (reading.pure []) tokens.old) result tokens.new }
    {
        if begins_expression(tokens.peek()) {
            self.print_values(tokens)
        } else {
            Ok(Items::new(self.level.alloc))
        }
    }

    #[tactic(auto, unfolding(brs_grammar::specs::ReadStatements::print_items))]
    fn print_items(&self, tokens: &mut Cursor<'_, '_>) -> Result<Items<PrintItem>, ParseError>
        requires { Nests self.now.level.depth (F.pre self.now.level.inside) (F.post self.now.level.inside) }
        ensures { Reads (at spec.print_items self.now.level.depth tokens.old) result tokens.new }
    {
        let separators = Held::new(more_separators(self.level.alloc, tokens)?);
        let values = self.optional_values(tokens)?;
        let mut items = separators.into_inner();
        items.append(values)?;
        Ok(items)
    }

    /// A `print`, with its values and separators in order.
    #[tactic(auto, unfolding(brs_grammar::specs::ReadStatements::print_))]
    pub fn print(&self, tokens: &mut Cursor<'_, '_>) -> Result<Simple, ParseError>
        requires { Nests self.now.level.depth (F.pre self.now.level.inside) (F.post self.now.level.inside) }
        ensures { Reads (at spec.print_ self.now.level.depth tokens.old) result tokens.new }
    {
        let token = print_word(tokens)?;
        let items = self.print_items(tokens)?;
        Ok(Simple::Print(place_of(&token), items))
    }
}
