//! The statement `if`, with blocks and in one line.
ghost use Rattle.std.specs.Prelude.{◌≡◌};
ghost use Rattle.std.specs.Option.{option_to_list};
ghost use Rattle.token_cursor.specs.Reads.{Gives, Reads};
ghost use Rattle.brs_grammar.specs.ReadStatements as spec;
ghost use Rattle.brs_grammar.specs.ReadFunctions.{at};
ghost use Rattle.expression_parser.specs.Nests.{Nests};
ghost use Rattle.grammar_rules.specs.Reading as reading;
ghost use Rattle.grammar_rules.specs.Words as rules;
ghost use Rattle.grammar_rules.specs.declared.word.Word.TheVariants as word;
ghost use Rattle.token_cursor.specs.Endings.{ending_of};
ghost use Rattle.statement_parser.specs.Arms as elseif;

use crate::statements::Statements;
use crate::words::{end_if, then_word, with_newline, with_separator};
use brs_grammar::tree::{BlockArm, Expression, LineArm, Simple, Statement};
use brs_tokens::Place;
use expression_parser::{Inner, Part};
use grammar_rules::{Word, place_of, same_word};
use sqlite_items::Items;
use std::alloc::Global;
use token_cursor::{Cursor, EndedTurns, Held, ParseError, ended};

/// The place of an `else`.
#[tactic(auto, unfolding(crate::specs::Arms::else_place))]
fn else_place(tokens: &mut Cursor<'_, '_>) -> Result<Place, ParseError>
    ensures { Reads (elseif.else_place tokens.old) result tokens.new }
{
    let token = tokens.expect(Word::Else)?;
    Ok(place_of(&token))
}

impl<F: Fn(Global, &mut Cursor<'_, '_>, usize, Part) -> Result<Inner, ParseError>> Statements<F> {
    /// The condition and the statements of an arm in one line, behind its first word.
    #[tactic(auto, unfolding(brs_grammar::specs::ReadStatements::next_line_arm))]
    fn line_arm(
        &self,
        tokens: &mut Cursor<'_, '_>,
        place: Place,
    ) -> Result<Option<LineArm>, ParseError>
        requires { Nests self.now.level.depth (F.pre self.now.level.inside) (F.post self.now.level.inside) }
        ensures { Gives option_to_list (at spec.next_line_arm self.now.level.depth place tokens.old) result tokens.new }
    {
        let condition = Held::new(self.level.expression(tokens)?);
        then_word(tokens)?;
        let run = self.run(tokens)?;
        Ok(Some(LineArm {
            place,
            condition: condition.into_inner(),
            run,
        }))
    }

    /// An arm in one line from the `if` of `else if` on.
    #[tactic(auto, unfolding(brs_grammar::specs::ReadStatements::else_if_line_arm))]
    fn else_if_line_arm(
        &self,
        tokens: &mut Cursor<'_, '_>,
        place: Place,
    ) -> Result<Option<LineArm>, ParseError>
        requires { Nests self.now.level.depth (F.pre self.now.level.inside) (F.post self.now.level.inside) }
        ensures { Gives option_to_list (at spec.else_if_line_arm self.now.level.depth place tokens.old) result tokens.new }
    {
        tokens.expect(Word::If)?;
        self.line_arm(tokens, place)
    }

    /// An arm in one line from `elseif` on.
    #[tactic(auto, unfolding(crate::specs::Arms::line_arm))]
    fn elseif_line_arm(&self, tokens: &mut Cursor<'_, '_>) -> Result<Option<LineArm>, ParseError>
        requires { Nests self.now.level.depth (F.pre self.now.level.inside) (F.post self.now.level.inside) }
        ensures { Gives option_to_list (at elseif.line_arm self.now.level.depth tokens.old) result tokens.new }
    {
        let token = tokens.expect(Word::ElseIf)?;
        self.line_arm(tokens, place_of(&token))
    }

    /// The further arms of an `if` in one line, and the statements behind its `else`.
    #[tactic(auto, using(crate::proofs::Heads::line_ended))]
    fn line_ending(
        &self,
        tokens: &mut Cursor<'_, '_>,
    ) -> Result<EndedTurns<LineArm, Items<Simple>>, ParseError>
        requires { Nests self.now.level.depth (F.pre self.now.level.inside) (F.post self.now.level.inside) }
        ensures { Gives ending_of (at spec.line_ending self.now.level.depth tokens.old) result tokens.new }
    {
        ended(
            self.level.alloc,
            tokens,
            Word::ElseIf,
            |tokens| self.elseif_line_arm(tokens),
            |word| same_word(Word::Else, word),
            |tokens| else_place(tokens),
            Word::If,
            |tokens, place| self.else_if_line_arm(tokens, place),
            |tokens, _| self.run(tokens),
        )
    }

    /// The condition and the block of an arm, behind its first word.
    #[tactic(auto, unfolding(brs_grammar::specs::ReadStatements::next_block_arm))]
    fn block_arm(
        &self,
        tokens: &mut Cursor<'_, '_>,
        place: Place,
    ) -> Result<Option<BlockArm>, ParseError>
        requires { Nests self.now.level.depth (F.pre self.now.level.inside) (F.post self.now.level.inside) }
        ensures { Gives option_to_list (at spec.next_block_arm self.now.level.depth place tokens.old) result tokens.new }
    {
        let condition = Held::new(self.level.expression(tokens)?);
        then_word(tokens)?;
        tokens.expect(Word::Newline)?;
        let block = self.level.inner_block(tokens)?;
        Ok(Some(BlockArm {
            place,
            condition: condition.into_inner(),
            block,
        }))
    }

    /// An arm with a block from the `if` of `else if` on.
    #[tactic(auto, unfolding(brs_grammar::specs::ReadStatements::else_if_block_arm))]
    fn else_if_block_arm(
        &self,
        tokens: &mut Cursor<'_, '_>,
        place: Place,
    ) -> Result<Option<BlockArm>, ParseError>
        requires { Nests self.now.level.depth (F.pre self.now.level.inside) (F.post self.now.level.inside) }
        ensures { Gives option_to_list (at spec.else_if_block_arm self.now.level.depth place tokens.old) result tokens.new }
    {
        tokens.expect(Word::If)?;
        self.block_arm(tokens, place)
    }

    /// An arm with a block from `elseif` on.
    #[tactic(auto, unfolding(crate::specs::Arms::block_arm))]
    fn elseif_block_arm(&self, tokens: &mut Cursor<'_, '_>) -> Result<Option<BlockArm>, ParseError>
        requires { Nests self.now.level.depth (F.pre self.now.level.inside) (F.post self.now.level.inside) }
        ensures { Gives option_to_list (at elseif.block_arm self.now.level.depth tokens.old) result tokens.new }
    {
        let token = tokens.expect(Word::ElseIf)?;
        self.block_arm(tokens, place_of(&token))
    }

    /// The block behind an `else`.
    #[tactic(auto, unfolding(brs_grammar::specs::ReadStatements::block_else))]
    fn block_else(&self, tokens: &mut Cursor<'_, '_>) -> Result<Items<Statement>, ParseError>
        requires { Nests self.now.level.depth (F.pre self.now.level.inside) (F.post self.now.level.inside) }
        ensures { Reads (at spec.block_else self.now.level.depth tokens.old) result tokens.new }
    {
        tokens.expect(Word::Newline)?;
        self.level.inner_block(tokens)
    }

    /// The further arms of an `if` with blocks, and the block behind its `else`.
    #[tactic(auto, using(crate::proofs::Heads::block_ended))]
    fn block_ending(
        &self,
        tokens: &mut Cursor<'_, '_>,
    ) -> Result<EndedTurns<BlockArm, Items<Statement>>, ParseError>
        requires { Nests self.now.level.depth (F.pre self.now.level.inside) (F.post self.now.level.inside) }
        ensures { Gives ending_of (at spec.block_ending self.now.level.depth tokens.old) result tokens.new }
    {
        ended(
            self.level.alloc,
            tokens,
            Word::ElseIf,
            |tokens| self.elseif_block_arm(tokens),
            |word| same_word(Word::Else, word),
            |tokens| else_place(tokens),
            Word::If,
            |tokens, place| self.else_if_block_arm(tokens, place),
            |tokens, _| self.block_else(tokens),
        )
    }

    /// An `if` with blocks from the line end behind its first condition on.
    #[tactic(auto, unfolding(brs_grammar::specs::ReadStatements::block_if_rest))]
    fn block_if_rest(
        &self,
        tokens: &mut Cursor<'_, '_>,
        place: Place,
        condition: Held<Expression>,
    ) -> Result<Statement, ParseError>
        requires { Nests self.now.level.depth (F.pre self.now.level.inside) (F.post self.now.level.inside) }
        ensures { Reads (at spec.block_if_rest self.now.level.depth place condition tokens.old) result tokens.new }
    {
        tokens.expect(Word::Newline)?;
        let block = Held::new(self.level.inner_block(tokens)?);
        let ending = Held::new(self.block_ending(tokens)?);
        end_if(tokens)?;
        let arm = BlockArm {
            place,
            condition: condition.into_inner(),
            block: block.into_inner(),
        };
        let ending = ending.into_inner();
        Ok(Statement::BlockIf(arm, ending.turns, ending.last))
    }

    /// An `if` in one line from its first statement on.
    #[tactic(auto, unfolding(brs_grammar::specs::ReadStatements::line_if_rest))]
    fn line_if_rest(
        &self,
        tokens: &mut Cursor<'_, '_>,
        place: Place,
        condition: Held<Expression>,
    ) -> Result<Statement, ParseError>
        requires { Nests self.now.level.depth (F.pre self.now.level.inside) (F.post self.now.level.inside) }
        ensures { Reads (at spec.line_if_rest self.now.level.depth place condition tokens.old) result tokens.new }
    {
        let run = Held::new(self.run(tokens)?);
        let ending = self.line_ending(tokens)?;
        let arm = LineArm {
            place,
            condition: condition.into_inner(),
            run: run.into_inner(),
        };
        Ok(Statement::LineIf(arm, ending.turns, ending.last))
    }

    /// An `if` with blocks, and what ends its line.
    #[tactic(auto, unfolding(brs_grammar::specs::ReadStatements::block_if_line))]
    fn block_if_line(
        &self,
        tokens: &mut Cursor<'_, '_>,
        place: Place,
        condition: Held<Expression>,
    ) -> Result<Option<Statement>, ParseError>
        requires { Nests self.now.level.depth (F.pre self.now.level.inside) (F.post self.now.level.inside) }
        ensures { Gives option_to_list (at spec.block_if_line self.now.level.depth place condition tokens.old) result tokens.new }
    {
        if self.level.depth == 0 {
            return Err(tokens.refuse());
        }
        let read = self.block_if_rest(tokens, place, condition);
        with_separator(tokens, read)
    }

    /// An `if` in one line, and the line end behind it.
    #[tactic(auto, unfolding(brs_grammar::specs::ReadStatements::line_if_line))]
    fn line_if_line(
        &self,
        tokens: &mut Cursor<'_, '_>,
        place: Place,
        condition: Held<Expression>,
    ) -> Result<Option<Statement>, ParseError>
        requires { Nests self.now.level.depth (F.pre self.now.level.inside) (F.post self.now.level.inside) }
        ensures { Gives option_to_list (at spec.line_if_line self.now.level.depth place condition tokens.old) result tokens.new }
    {
        let read = self.line_if_rest(tokens, place, condition);
        with_newline(tokens, read)
    }

    /// What follows the first condition of an `if`.
    #[tactic(auto, unfolding(grammar_rules::specs::Words::same_word))]
    fn if_body(
        &self,
        tokens: &mut Cursor<'_, '_>,
        place: Place,
        condition: Held<Expression>,
    ) -> Result<Option<Statement>, ParseError>
        requires { Nests self.now.level.depth (F.pre self.now.level.inside) (F.post self.now.level.inside) }
        ensures { Gives option_to_list (reading.choose (rules.same_word word.Newline) (at spec.block_if_line self.now.level.depth place condition) (at spec.line_if_line self.now.level.depth place condition) tokens.old) result tokens.new }
    {
        match tokens.peek() {
            Word::Newline => self.block_if_line(tokens, place, condition),
            _ => self.line_if_line(tokens, place, condition),
        }
    }

    /// An `if` with blocks or in one line, and what ends its line.
    #[tactic(auto, unfolding(brs_grammar::specs::ReadStatements::if_line))]
    pub fn if_line(&self, tokens: &mut Cursor<'_, '_>) -> Result<Option<Statement>, ParseError>
        requires { Nests self.now.level.depth (F.pre self.now.level.inside) (F.post self.now.level.inside) }
        ensures { Gives option_to_list (at spec.if_line self.now.level.depth tokens.old) result tokens.new }
    {
        let token = tokens.expect(Word::If)?;
        let condition = Held::new(self.level.expression(tokens)?);
        then_word(tokens)?;
        self.if_body(tokens, place_of(&token), condition)
    }
}
