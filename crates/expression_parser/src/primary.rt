//! Primary expressions, and what stands behind them.
ghost use Rattle.std.specs.Prelude.{◌≡◌};
ghost use Rattle.std.specs.Option.{option_to_list};
ghost use Rattle.token_cursor.specs.Reads.{Gives, Reads};
ghost use Rattle.brs_grammar.specs.ReadExpressions as spec;
ghost use Rattle.brs_grammar.specs.ReadFunctions.{at};
ghost use Rattle.expression_parser.specs.Nests.{Nests};

use crate::leaves::{
    end_function, end_sub, false_value, invalid, member, number, text, true_value, variable,
};
use crate::level::{Inner, Level, Part};
use brs_grammar::classes::begins_postfix;
use brs_grammar::tree::{Postfix, Primary, Value};
use grammar_rules::{Word, is_name, place_of};
use sqlite_items::{Boxed, Items};
use std::alloc::Global;
use token_cursor::{Cursor, Held, ParseError, many};

impl<F: Fn(Global, &mut Cursor<'_, '_>, usize, Part) -> Result<Inner, ParseError>> Level<F> {
    #[tactic(auto, unfolding(brs_grammar::specs::ReadExpressions::bracketed))]
    fn bracketed(&self, tokens: &mut Cursor<'_, '_>) -> Result<Primary, ParseError>
        requires { Nests self.now.depth (F.pre self.now.inside) (F.post self.now.inside) }
        ensures { Reads (at spec.bracketed self.now.depth tokens.old) result tokens.new }
    {
        if self.depth == 0 {
            return Err(tokens.refuse());
        }
        let token = tokens.expect(Word::Open)?;
        let inner = Held::new(self.inner_expression(tokens)?);
        tokens.expect(Word::Close)?;
        let boxed = Boxed::new(self.alloc, inner.into_inner())?;
        Ok(Primary::Bracketed(place_of(&token), boxed))
    }

    #[tactic(auto, unfolding(brs_grammar::specs::ReadExpressions::array))]
    fn array(&self, tokens: &mut Cursor<'_, '_>) -> Result<Primary, ParseError>
        requires { Nests self.now.depth (F.pre self.now.inside) (F.post self.now.inside) }
        ensures { Reads (at spec.array self.now.depth tokens.old) result tokens.new }
    {
        if self.depth == 0 {
            return Err(tokens.refuse());
        }
        let token = tokens.expect(Word::OpenBracket)?;
        let inner = Held::new(self.inner_items(tokens)?);
        tokens.expect(Word::CloseBracket)?;
        Ok(Primary::Array(place_of(&token), inner.into_inner()))
    }

    #[tactic(auto, unfolding(brs_grammar::specs::ReadExpressions::pairs))]
    fn pairs(&self, tokens: &mut Cursor<'_, '_>) -> Result<Primary, ParseError>
        requires { Nests self.now.depth (F.pre self.now.inside) (F.post self.now.inside) }
        ensures { Reads (at spec.pairs self.now.depth tokens.old) result tokens.new }
    {
        if self.depth == 0 {
            return Err(tokens.refuse());
        }
        let token = tokens.expect(Word::OpenBrace)?;
        let inner = Held::new(self.inner_pairs(tokens)?);
        tokens.expect(Word::CloseBrace)?;
        Ok(Primary::Pairs(place_of(&token), inner.into_inner()))
    }

    #[tactic(auto, unfolding(brs_grammar::specs::ReadExpressions::anonymous_function))]
    fn anonymous_function(&self, tokens: &mut Cursor<'_, '_>) -> Result<Primary, ParseError>
        requires { Nests self.now.depth (F.pre self.now.inside) (F.post self.now.inside) }
        ensures { Reads (at spec.anonymous_function self.now.depth tokens.old) result tokens.new }
    {
        if self.depth == 0 {
            return Err(tokens.refuse());
        }
        let token = tokens.expect(Word::Function)?;
        let inner = Held::new(self.inner_rest(tokens)?);
        end_function(tokens)?;
        Ok(Primary::AnonymousFunction(place_of(&token), inner.into_inner()))
    }

    #[tactic(auto, unfolding(brs_grammar::specs::ReadExpressions::anonymous_sub))]
    fn anonymous_sub(&self, tokens: &mut Cursor<'_, '_>) -> Result<Primary, ParseError>
        requires { Nests self.now.depth (F.pre self.now.inside) (F.post self.now.inside) }
        ensures { Reads (at spec.anonymous_sub self.now.depth tokens.old) result tokens.new }
    {
        if self.depth == 0 {
            return Err(tokens.refuse());
        }
        let token = tokens.expect(Word::Sub)?;
        let inner = Held::new(self.inner_rest(tokens)?);
        end_sub(tokens)?;
        Ok(Primary::AnonymousSub(place_of(&token), inner.into_inner()))
    }

    /// A primary expression.
    #[tactic(auto, unfolding(brs_grammar::specs::ReadExpressions::a_primary, grammar_rules::specs::Words::same_word))]
    fn primary(&self, tokens: &mut Cursor<'_, '_>) -> Result<Primary, ParseError>
        requires { Nests self.now.depth (F.pre self.now.inside) (F.post self.now.inside) }
        ensures { Reads (at spec.a_primary self.now.depth tokens.old) result tokens.new }
    {
        match tokens.peek() {
            Word::Number => number(self.alloc, tokens),
            Word::Text => text(self.alloc, tokens),
            Word::True => true_value(tokens),
            Word::False => false_value(tokens),
            Word::Invalid => invalid(tokens),
            word if is_name(word) => variable(self.alloc, tokens),
            Word::Open => self.bracketed(tokens),
            Word::OpenBracket => self.array(tokens),
            Word::OpenBrace => self.pairs(tokens),
            Word::Function => self.anonymous_function(tokens),
            _ => self.anonymous_sub(tokens),
        }
    }

    #[tactic(auto, unfolding(brs_grammar::specs::ReadExpressions::index))]
    fn index(&self, tokens: &mut Cursor<'_, '_>) -> Result<Option<Postfix>, ParseError>
        requires { Nests self.now.depth (F.pre self.now.inside) (F.post self.now.inside) }
        ensures { Gives option_to_list (at spec.index self.now.depth tokens.old) result tokens.new }
    {
        if self.depth == 0 {
            return Err(tokens.refuse());
        }
        let token = tokens.expect(Word::OpenBracket)?;
        let inner = Held::new(self.inner_expression(tokens)?);
        tokens.expect(Word::CloseBracket)?;
        Ok(Some(Postfix::Index(place_of(&token), inner.into_inner())))
    }

    #[tactic(auto, unfolding(brs_grammar::specs::ReadExpressions::arguments))]
    fn arguments(&self, tokens: &mut Cursor<'_, '_>) -> Result<Option<Postfix>, ParseError>
        requires { Nests self.now.depth (F.pre self.now.inside) (F.post self.now.inside) }
        ensures { Gives option_to_list (at spec.arguments self.now.depth tokens.old) result tokens.new }
    {
        if self.depth == 0 {
            return Err(tokens.refuse());
        }
        let token = tokens.expect(Word::Open)?;
        let inner = Held::new(self.inner_arguments(tokens)?);
        tokens.expect(Word::Close)?;
        Ok(Some(Postfix::Arguments(place_of(&token), inner.into_inner())))
    }

    #[tactic(auto, unfolding(brs_grammar::specs::ReadExpressions::a_postfix, grammar_rules::specs::Words::same_word))]
    fn postfix(&self, tokens: &mut Cursor<'_, '_>) -> Result<Option<Postfix>, ParseError>
        requires { Nests self.now.depth (F.pre self.now.inside) (F.post self.now.inside) }
        ensures { Gives option_to_list (at spec.a_postfix self.now.depth tokens.old) result tokens.new }
    {
        match tokens.peek() {
            Word::Dot => member(self.alloc, tokens),
            Word::OpenBracket => self.index(tokens),
            _ => self.arguments(tokens),
        }
    }

    /// Members, indexes and calls behind a value.
    #[tactic(auto, unfolding(brs_grammar::specs::ReadExpressions::postfixes))]
    pub fn postfixes(&self, tokens: &mut Cursor<'_, '_>) -> Result<Items<Postfix>, ParseError>
        requires { Nests self.now.depth (F.pre self.now.inside) (F.post self.now.inside) }
        ensures { Reads (at spec.postfixes self.now.depth tokens.old) result tokens.new }
    {
        many(self.alloc, tokens, begins_postfix, |tokens| {
            self.postfix(tokens)
        })
    }

    /// A primary expression with members, indexes and calls behind it.
    #[tactic(auto, unfolding(brs_grammar::specs::ReadExpressions::a_value))]
    pub fn value(&self, tokens: &mut Cursor<'_, '_>) -> Result<Value, ParseError>
        requires { Nests self.now.depth (F.pre self.now.inside) (F.post self.now.inside) }
        ensures { Reads (at spec.a_value self.now.depth tokens.old) result tokens.new }
    {
        let first = Held::new(self.primary(tokens)?);
        let more = self.postfixes(tokens)?;
        Ok(Value {
            first: first.into_inner(),
            more,
        })
    }
}
