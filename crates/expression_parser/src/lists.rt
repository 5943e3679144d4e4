//! Lists inside brackets: arguments, items and pairs.
ghost use Rattle.std.specs.Prelude.{◌≡◌};
ghost use Rattle.std.specs.Option.{option_to_list};
ghost use Rattle.token_cursor.specs.Reads.{Gives, Reads};
ghost use Rattle.brs_grammar.specs.ReadExpressions as spec;
ghost use Rattle.brs_grammar.specs.ReadFunctions.{at};
ghost use Rattle.expression_parser.specs.Nests.{Nests};

use crate::leaves::{gap, key, newlines};
use crate::level::{Inner, Level, Part};
use brs_grammar::classes::{begins_expression, begins_gap, begins_key};
use brs_grammar::tree::{Expression, Pair};
use grammar_rules::{Word, same_word};
use sqlite_items::Items;
use std::alloc::Global;
use token_cursor::{Cursor, Held, ParseError, many, prepend, trail};

impl<F: Fn(Global, &mut Cursor<'_, '_>, usize, Part) -> Result<Inner, ParseError>> Level<F> {
    #[tactic(auto, unfolding(brs_grammar::specs::ReadExpressions::next_argument))]
    fn next_argument(&self, tokens: &mut Cursor<'_, '_>) -> Result<Option<Expression>, ParseError>
        requires { Nests self.now.depth (F.pre self.now.inside) (F.post self.now.inside) }
        ensures { Gives option_to_list (at spec.next_argument self.now.depth tokens.old) result tokens.new }
    {
        tokens.expect(Word::Comma)?;
        let argument = self.expression(tokens)?;
        Ok(Some(argument))
    }

    #[tactic(auto, unfolding(brs_grammar::specs::ReadExpressions::next_arguments))]
    fn next_arguments(&self, tokens: &mut Cursor<'_, '_>) -> Result<Items<Expression>, ParseError>
        requires { Nests self.now.depth (F.pre self.now.inside) (F.post self.now.inside) }
        ensures { Reads (at spec.next_arguments self.now.depth tokens.old) result tokens.new }
    {
        many(
            self.alloc,
            tokens,
            |word| same_word(Word::Comma, word),
            |tokens| self.next_argument(tokens),
        )
    }

    #[tactic(auto, unfolding(brs_grammar::specs::ReadExpressions::some_arguments))]
    fn some_arguments(&self, tokens: &mut Cursor<'_, '_>) -> Result<Items<Expression>, ParseError>
        requires { Nests self.now.depth (F.pre self.now.inside) (F.post self.now.inside) }
        ensures { Reads (at spec.some_arguments self.now.depth tokens.old) result tokens.new }
    {
        let first = Held::new(self.expression(tokens)?);
        let more = self.next_arguments(tokens)?;
        let all = prepend(self.alloc, Some(first.into_inner()), more)?;
        Ok(all)
    }

    /// The arguments of a call.
    #[tactic(auto, unfolding(brs_grammar::specs::ReadExpressions::all_arguments))]
    pub fn all_arguments(
        &self,
        tokens: &mut Cursor<'_, '_>,
    ) -> Result<Items<Expression>, ParseError>
        requires { Nests self.now.depth (F.pre self.now.inside) (F.post self.now.inside) }
        ensures { Reads (at spec.all_arguments self.now.depth tokens.old) result tokens.new }
    {
        if begins_expression(tokens.peek()) {
            self.some_arguments(tokens)
        } else {
            Ok(Items::new(self.alloc))
        }
    }

    #[tactic(auto, unfolding(brs_grammar::specs::ReadExpressions::an_item))]
    fn item(&self, tokens: &mut Cursor<'_, '_>) -> Result<Option<Expression>, ParseError>
        requires { Nests self.now.depth (F.pre self.now.inside) (F.post self.now.inside) }
        ensures { Gives option_to_list (at spec.an_item self.now.depth tokens.old) result tokens.new }
    {
        let item = self.expression(tokens)?;
        Ok(Some(item))
    }

    #[tactic(auto, unfolding(brs_grammar::specs::ReadExpressions::next_items))]
    fn next_items(&self, tokens: &mut Cursor<'_, '_>) -> Result<Items<Expression>, ParseError>
        requires { Nests self.now.depth (F.pre self.now.inside) (F.post self.now.inside) }
        ensures { Reads (at spec.next_items self.now.depth tokens.old) result tokens.new }
    {
        trail(
            self.alloc,
            tokens,
            begins_gap,
            |tokens| gap(self.alloc, tokens),
            begins_expression,
            |tokens| self.item(tokens),
        )
    }

    #[tactic(auto, unfolding(brs_grammar::specs::ReadExpressions::some_items))]
    fn some_items(&self, tokens: &mut Cursor<'_, '_>) -> Result<Items<Expression>, ParseError>
        requires { Nests self.now.depth (F.pre self.now.inside) (F.post self.now.inside) }
        ensures { Reads (at spec.some_items self.now.depth tokens.old) result tokens.new }
    {
        let first = Held::new(self.expression(tokens)?);
        let more = self.next_items(tokens)?;
        let all = prepend(self.alloc, Some(first.into_inner()), more)?;
        Ok(all)
    }

    /// The items of an array.
    #[tactic(auto, unfolding(brs_grammar::specs::ReadExpressions::all_items))]
    pub fn all_items(&self, tokens: &mut Cursor<'_, '_>) -> Result<Items<Expression>, ParseError>
        requires { Nests self.now.depth (F.pre self.now.inside) (F.post self.now.inside) }
        ensures { Reads (at spec.all_items self.now.depth tokens.old) result tokens.new }
    {
        newlines(self.alloc, tokens)?;
        if begins_expression(tokens.peek()) {
            self.some_items(tokens)
        } else {
            Ok(Items::new(self.alloc))
        }
    }

    #[tactic(auto, unfolding(brs_grammar::specs::ReadExpressions::a_pair))]
    fn pair(&self, tokens: &mut Cursor<'_, '_>) -> Result<Pair, ParseError>
        requires { Nests self.now.depth (F.pre self.now.inside) (F.post self.now.inside) }
        ensures { Reads (at spec.a_pair self.now.depth tokens.old) result tokens.new }
    {
        let key = key(self.alloc, tokens)?;
        tokens.expect(Word::Colon)?;
        let value = self.expression(tokens)?;
        Ok(Pair { key, value })
    }

    #[tactic(auto, unfolding(brs_grammar::specs::ReadExpressions::next_pair))]
    fn next_pair(&self, tokens: &mut Cursor<'_, '_>) -> Result<Option<Pair>, ParseError>
        requires { Nests self.now.depth (F.pre self.now.inside) (F.post self.now.inside) }
        ensures { Gives option_to_list (at spec.next_pair self.now.depth tokens.old) result tokens.new }
    {
        let pair = self.pair(tokens)?;
        Ok(Some(pair))
    }

    #[tactic(auto, unfolding(brs_grammar::specs::ReadExpressions::next_pairs))]
    fn next_pairs(&self, tokens: &mut Cursor<'_, '_>) -> Result<Items<Pair>, ParseError>
        requires { Nests self.now.depth (F.pre self.now.inside) (F.post self.now.inside) }
        ensures { Reads (at spec.next_pairs self.now.depth tokens.old) result tokens.new }
    {
        trail(
            self.alloc,
            tokens,
            begins_gap,
            |tokens| gap(self.alloc, tokens),
            begins_key,
            |tokens| self.next_pair(tokens),
        )
    }

    #[tactic(auto, unfolding(brs_grammar::specs::ReadExpressions::some_pairs))]
    fn some_pairs(&self, tokens: &mut Cursor<'_, '_>) -> Result<Items<Pair>, ParseError>
        requires { Nests self.now.depth (F.pre self.now.inside) (F.post self.now.inside) }
        ensures { Reads (at spec.some_pairs self.now.depth tokens.old) result tokens.new }
    {
        let first = Held::new(self.pair(tokens)?);
        let more = self.next_pairs(tokens)?;
        let all = prepend(self.alloc, Some(first.into_inner()), more)?;
        Ok(all)
    }

    /// The pairs of an associative array.
    #[tactic(auto, unfolding(brs_grammar::specs::ReadExpressions::all_pairs))]
    pub fn all_pairs(&self, tokens: &mut Cursor<'_, '_>) -> Result<Items<Pair>, ParseError>
        requires { Nests self.now.depth (F.pre self.now.inside) (F.post self.now.inside) }
        ensures { Reads (at spec.all_pairs self.now.depth tokens.old) result tokens.new }
    {
        newlines(self.alloc, tokens)?;
        if begins_key(tokens.peek()) {
            self.some_pairs(tokens)
        } else {
            Ok(Items::new(self.alloc))
        }
    }
}
