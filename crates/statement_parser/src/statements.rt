//! The parser of statements and functions at a level of nesting.
ghost use Rattle.std.specs.Prelude.{suc};
ghost use Rattle.brs_grammar.specs.ReadFunctions as spec;
ghost use Rattle.expression_parser.specs.Nests.{Comes, Nests};

use expression_parser::{Inner, Level, Part};
use std::alloc::Global;
use token_cursor::{Cursor, ParseError};

/// The parser of statements and functions at a level of nesting.
#[derive(Clone, Copy)]
pub struct Statements<F> {
    /// The level, which reads what stands inside.
    pub level: Level<F>,
}

impl<F: Fn(Global, &mut Cursor<'_, '_>, usize, Part) -> Result<Inner, ParseError>> Statements<F> {
    /// What stands inside a form of the next level: the part that is asked for.
    #[tactic(auto, unfolding(brs_grammar::specs::ReadFunctions::inside))]
    pub fn part(&self, tokens: &mut Cursor<'_, '_>, part: Part) -> Result<Inner, ParseError>
        requires { Nests self.now.level.depth (F.pre self.now.level.inside) (F.post self.now.level.inside) }
        ensures { Comes (spec.inside (suc self.now.level.depth)) part tokens.old result tokens.new }
    {
        match part {
            Part::Expression => Ok(Inner::Expression(self.level.expression(tokens)?)),
            Part::Arguments => Ok(Inner::Arguments(self.level.all_arguments(tokens)?)),
            Part::Items => Ok(Inner::Items(self.level.all_items(tokens)?)),
            Part::Pairs => Ok(Inner::Pairs(self.level.all_pairs(tokens)?)),
            Part::Negation => Ok(Inner::Negation(self.level.negation(tokens)?)),
            Part::Minus => Ok(Inner::Minus(self.level.minus(tokens)?)),
            Part::Block => Ok(Inner::Block(self.block(tokens)?)),
            Part::Rest => Ok(Inner::Rest(self.rest(tokens)?)),
        }
    }
}
