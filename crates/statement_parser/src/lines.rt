//! The lines of a block.
ghost use Rattle.std.specs.Prelude.{◌≡◌};
ghost use Rattle.std.specs.Option.{option_to_list};
ghost use Rattle.token_cursor.specs.Reads.{Gives, Reads};
ghost use Rattle.brs_grammar.specs.ReadStatements as spec;
ghost use Rattle.brs_grammar.specs.ReadFunctions.{at};
ghost use Rattle.expression_parser.specs.Nests.{Nests};

use crate::statements::Statements;
use crate::words::{separator, with_separator};
use brs_grammar::classes::{begins_line, begins_separator, begins_simple};
use brs_grammar::tree::Statement;
use expression_parser::{Inner, Part};
use grammar_rules::Word;
use sqlite_items::Items;
use std::alloc::Global;
use token_cursor::{Cursor, ParseError, many};

impl<F: Fn(Global, &mut Cursor<'_, '_>, usize, Part) -> Result<Inner, ParseError>> Statements<F> {
    #[tactic(auto, unfolding(brs_grammar::specs::ReadStatements::simple_statement))]
    fn simple_statement(&self, tokens: &mut Cursor<'_, '_>) -> Result<Statement, ParseError>
        requires { Nests self.now.level.depth (F.pre self.now.level.inside) (F.post self.now.level.inside) }
        ensures { Reads (at spec.simple_statement self.now.level.depth tokens.old) result tokens.new }
    {
        let simple = self.simple(tokens)?;
        Ok(Statement::Simple(simple))
    }

    #[tactic(auto, unfolding(brs_grammar::specs::ReadStatements::other_plain, grammar_rules::specs::Words::same_word))]
    fn other_plain(&self, tokens: &mut Cursor<'_, '_>) -> Result<Statement, ParseError>
        requires { Nests self.now.level.depth (F.pre self.now.level.inside) (F.post self.now.level.inside) }
        ensures { Reads (at spec.other_plain self.now.level.depth tokens.old) result tokens.new }
    {
        match tokens.peek() {
            word if begins_simple(word) => self.simple_statement(tokens),
            Word::For => self.for_loop(tokens),
            _ => self.while_loop(tokens),
        }
    }

    #[tactic(auto, unfolding(brs_grammar::specs::ReadStatements::other_line))]
    fn other_line(&self, tokens: &mut Cursor<'_, '_>) -> Result<Option<Statement>, ParseError>
        requires { Nests self.now.level.depth (F.pre self.now.level.inside) (F.post self.now.level.inside) }
        ensures { Gives option_to_list (at spec.other_line self.now.level.depth tokens.old) result tokens.new }
    {
        let read = self.other_plain(tokens);
        with_separator(tokens, read)
    }

    #[tactic(auto, unfolding(brs_grammar::specs::ReadStatements::empty_line))]
    fn empty_line(&self, tokens: &mut Cursor<'_, '_>) -> Result<Option<Statement>, ParseError>
        requires { Nests self.now.level.depth (F.pre self.now.level.inside) (F.post self.now.level.inside) }
        ensures { Gives option_to_list (at spec.empty_line self.now.level.depth tokens.old) result tokens.new }
    {
        separator(tokens)?;
        Ok(None)
    }

    #[tactic(auto, unfolding(brs_grammar::specs::ReadStatements::line, grammar_rules::specs::Words::same_word))]
    fn line(&self, tokens: &mut Cursor<'_, '_>) -> Result<Option<Statement>, ParseError>
        requires { Nests self.now.level.depth (F.pre self.now.level.inside) (F.post self.now.level.inside) }
        ensures { Gives option_to_list (at spec.line self.now.level.depth tokens.old) result tokens.new }
    {
        match tokens.peek() {
            word if begins_separator(word) => self.empty_line(tokens),
            Word::If => self.if_line(tokens),
            _ => self.other_line(tokens),
        }
    }

    /// The statements of a block.
    #[tactic(auto, unfolding(brs_grammar::specs::ReadStatements::block))]
    pub fn block(&self, tokens: &mut Cursor<'_, '_>) -> Result<Items<Statement>, ParseError>
        requires { Nests self.now.level.depth (F.pre self.now.level.inside) (F.post self.now.level.inside) }
        ensures { Reads (at spec.block self.now.level.depth tokens.old) result tokens.new }
    {
        many(self.level.alloc, tokens, begins_line, |tokens| {
            self.line(tokens)
        })
    }
}
