//! The statements `for`, `for each` and `while`.
ghost use Rattle.std.specs.Prelude.{◌≡◌};
ghost use Rattle.std.specs.Option.{option_to_list};
ghost use Rattle.token_cursor.specs.Reads.{Gives, Reads};
ghost use Rattle.brs_grammar.specs.ReadExpressions as expression;
ghost use Rattle.brs_grammar.specs.ReadStatements as spec;
ghost use Rattle.brs_grammar.specs.ReadFunctions.{at};
ghost use Rattle.expression_parser.specs.Nests.{Nests};
ghost use Rattle.grammar_rules.specs.Reading as reading;
ghost use Rattle.grammar_rules.specs.Words as rules;
ghost use Rattle.grammar_rules.specs.declared.word.Word.TheVariants as word;

use crate::statements::Statements;
use crate::words::{end_for, end_while, separator};
use brs_grammar::tree::{Expression, Name, Statement};
use brs_tokens::Place;
use expression_parser::{Inner, Part, name_of};
use grammar_rules::{Word, place_of, same_word, word_of};
use sqlite_items::Boxed;
use std::alloc::Global;
use token_cursor::{Cursor, Held, ParseError};

impl<F: Fn(Global, &mut Cursor<'_, '_>, usize, Part) -> Result<Inner, ParseError>> Statements<F> {
    /// An expression as the head of a `for` has it.
    fn boxed_expression(&self, tokens: &mut Cursor<'_, '_>) -> Result<Boxed<Expression>, ParseError>
        requires { Nests self.now.level.depth (F.pre self.now.level.inside) (F.post self.now.level.inside) }
        ensures { Reads (at expression.an_expression self.now.level.depth tokens.old) result tokens.new }
    {
        let value = self.level.expression(tokens)?;
        let boxed = Boxed::new(self.level.alloc, value)?;
        Ok(boxed)
    }

    /// The step behind the end of a `for`.
    #[tactic(auto, unfolding(brs_grammar::specs::ReadStatements::step))]
    fn step(&self, tokens: &mut Cursor<'_, '_>) -> Result<Boxed<Expression>, ParseError>
        requires { Nests self.now.level.depth (F.pre self.now.level.inside) (F.post self.now.level.inside) }
        ensures { Reads (at spec.step self.now.level.depth tokens.old) result tokens.new }
    {
        tokens.expect(Word::Step)?;
        self.boxed_expression(tokens)
    }

    /// The step, or nothing.
    #[tactic(auto, unfolding(grammar_rules::specs::Words::same_word))]
    fn optional_step(
        &self,
        tokens: &mut Cursor<'_, '_>,
    ) -> Result<Option<Boxed<Expression>>, ParseError>
        requires { Nests self.now.level.depth (F.pre self.now.level.inside) (F.post self.now.level.inside) }
        ensures { Reads (reading.optional (rules.same_word word.Step) (at spec.step self.now.level.depth) tokens.old) result tokens.new }
    {
        match tokens.peek() {
            Word::Step => {
                let step = self.step(tokens)?;
                Ok(Some(step))
            }
            _ => Ok(None),
        }
    }

    /// The block of a `for`, behind its head.
    #[tactic(auto, unfolding(brs_grammar::specs::ReadStatements::for_body))]
    fn for_body(
        &self,
        tokens: &mut Cursor<'_, '_>,
        place: Place,
        name: Name,
        first: Boxed<Expression>,
        last: Boxed<Expression>,
        step: Option<Boxed<Expression>>,
    ) -> Result<Statement, ParseError>
        requires { Nests self.now.level.depth (F.pre self.now.level.inside) (F.post self.now.level.inside) }
        ensures { Reads (at spec.for_body self.now.level.depth place name first last step tokens.old) result tokens.new }
    {
        let head = Held::new((name, first, last, step));
        separator(tokens)?;
        let block = Held::new(self.level.inner_block(tokens)?);
        end_for(tokens)?;
        let (name, first, last, step) = head.into_inner();
        let block = block.into_inner();
        Ok(Statement::For(place, name, first, last, step, block))
    }

    /// A `for` from the `=` behind its variable on.
    #[tactic(auto, unfolding(brs_grammar::specs::ReadStatements::for_rest))]
    fn for_rest(
        &self,
        tokens: &mut Cursor<'_, '_>,
        place: Place,
        name: Name,
    ) -> Result<Statement, ParseError>
        requires { Nests self.now.level.depth (F.pre self.now.level.inside) (F.post self.now.level.inside) }
        ensures { Reads (at spec.for_rest self.now.level.depth place name tokens.old) result tokens.new }
    {
        tokens.expect(Word::Equal)?;
        let first = Held::new(self.boxed_expression(tokens)?);
        tokens.expect(Word::To)?;
        let last = Held::new(self.boxed_expression(tokens)?);
        let step = self.optional_step(tokens)?;
        let first = first.into_inner();
        let last = last.into_inner();
        self.for_body(tokens, place, name, first, last, step)
    }

    /// A `for each` from its variable on.
    #[tactic(auto, unfolding(brs_grammar::specs::ReadStatements::each_rest))]
    fn each_rest(&self, tokens: &mut Cursor<'_, '_>, place: Place) -> Result<Statement, ParseError>
        requires { Nests self.now.level.depth (F.pre self.now.level.inside) (F.post self.now.level.inside) }
        ensures { Reads (at spec.each_rest self.now.level.depth place tokens.old) result tokens.new }
    {
        let token = tokens.expect_name()?;
        let name = name_of(self.level.alloc, &token)?;
        tokens.expect(Word::In)?;
        let items = Held::new(self.level.expression(tokens)?);
        separator(tokens)?;
        let block = Held::new(self.level.inner_block(tokens)?);
        end_for(tokens)?;
        Ok(Statement::ForEach(place, name, items.into_inner(), block.into_inner()))
    }

    /// What follows the first name of a `for`. `each` is the variable where `=` follows.
    #[tactic(auto, unfolding(grammar_rules::specs::Words::same_word))]
    fn for_variable(
        &self,
        tokens: &mut Cursor<'_, '_>,
        place: Place,
        name: Name,
        each: bool,
    ) -> Result<Statement, ParseError>
        requires { Nests self.now.level.depth (F.pre self.now.level.inside) (F.post self.now.level.inside) }
        ensures { Reads (at spec.for_variable self.now.level.depth place name each tokens.old) result tokens.new }
    {
        if !each {
            return self.for_rest(tokens, place, name);
        }
        match tokens.peek() {
            Word::Equal => self.for_rest(tokens, place, name),
            _ => self.each_rest(tokens, place),
        }
    }

    /// A `for` or a `for each`.
    #[tactic(auto, unfolding(brs_grammar::specs::ReadStatements::for_))]
    pub fn for_loop(&self, tokens: &mut Cursor<'_, '_>) -> Result<Statement, ParseError>
        requires { Nests self.now.level.depth (F.pre self.now.level.inside) (F.post self.now.level.inside) }
        ensures { Reads (at spec.for_ self.now.level.depth tokens.old) result tokens.new }
    {
        if self.level.depth == 0 {
            return Err(tokens.refuse());
        }
        let token = tokens.expect(Word::For)?;
        let variable = tokens.expect_name()?;
        let name = name_of(self.level.alloc, &variable)?;
        let each = same_word(Word::Each, word_of(&variable));
        self.for_variable(tokens, place_of(&token), name, each)
    }

    /// A `while`.
    #[tactic(auto, unfolding(brs_grammar::specs::ReadStatements::while_))]
    pub fn while_loop(&self, tokens: &mut Cursor<'_, '_>) -> Result<Statement, ParseError>
        requires { Nests self.now.level.depth (F.pre self.now.level.inside) (F.post self.now.level.inside) }
        ensures { Reads (at spec.while_ self.now.level.depth tokens.old) result tokens.new }
    {
        if self.level.depth == 0 {
            return Err(tokens.refuse());
        }
        let token = tokens.expect(Word::While)?;
        let condition = Held::new(self.level.expression(tokens)?);
        separator(tokens)?;
        let block = Held::new(self.level.inner_block(tokens)?);
        end_while(tokens)?;
        Ok(Statement::While(place_of(&token), condition.into_inner(), block.into_inner()))
    }
}
