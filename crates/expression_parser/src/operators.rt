//! Chains of operators, level by level.
ghost use Rattle.std.specs.Prelude.{◌≡◌};
ghost use Rattle.std.specs.Option.{option_to_list};
ghost use Rattle.token_cursor.specs.Reads.{Gives, Reads};
ghost use Rattle.brs_grammar.specs.ReadExpressions as spec;
ghost use Rattle.brs_grammar.specs.ReadFunctions.{at};
ghost use Rattle.expression_parser.specs.Nests.{Nests};

use crate::level::{Inner, Level, Part};
use crate::signs::{
    expect_comparison_sign, expect_product_sign, expect_shift_sign, expect_sum_sign,
};
use brs_grammar::classes::{is_comparison_sign, is_product_sign, is_shift_sign, is_sum_sign};
use brs_grammar::signs::{comparison_sign, product_sign, shift_sign, sum_sign};
use brs_grammar::tree::{
    AndPart, Comparison, ComparisonPart, Conjunction, Expression, Minus, Negation, OrPart, Product,
    ProductPart, Shift, ShiftPart, Sum, SumPart,
};
use grammar_rules::{Word, place_of, same_word, word_of};
use sqlite_items::{Boxed, Items};
use std::alloc::Global;
use token_cursor::{Cursor, Held, ParseError, many};

impl<F: Fn(Global, &mut Cursor<'_, '_>, usize, Part) -> Result<Inner, ParseError>> Level<F> {
    #[tactic(auto, unfolding(brs_grammar::specs::ReadExpressions::negative))]
    fn negative(&self, tokens: &mut Cursor<'_, '_>) -> Result<Minus, ParseError>
        requires { Nests self.now.depth (F.pre self.now.inside) (F.post self.now.inside) }
        ensures { Reads (at spec.negative self.now.depth tokens.old) result tokens.new }
    {
        if self.depth == 0 {
            return Err(tokens.refuse());
        }
        let token = tokens.expect(Word::Minus)?;
        let inner = self.inner_minus(tokens)?;
        let operand = Boxed::new(self.alloc, inner)?;
        Ok(Minus::Negative(place_of(&token), operand))
    }

    #[tactic(auto, unfolding(brs_grammar::specs::ReadExpressions::positive))]
    fn positive(&self, tokens: &mut Cursor<'_, '_>) -> Result<Minus, ParseError>
        requires { Nests self.now.depth (F.pre self.now.inside) (F.post self.now.inside) }
        ensures { Reads (at spec.positive self.now.depth tokens.old) result tokens.new }
    {
        let value = self.value(tokens)?;
        Ok(Minus::Positive(value))
    }

    /// `-` before an operand, or a value.
    #[tactic(auto, unfolding(brs_grammar::specs::ReadExpressions::a_minus, grammar_rules::specs::Words::same_word))]
    pub fn minus(&self, tokens: &mut Cursor<'_, '_>) -> Result<Minus, ParseError>
        requires { Nests self.now.depth (F.pre self.now.inside) (F.post self.now.inside) }
        ensures { Reads (at spec.a_minus self.now.depth tokens.old) result tokens.new }
    {
        match tokens.peek() {
            Word::Minus => self.negative(tokens),
            _ => self.positive(tokens),
        }
    }

    #[tactic(auto, unfolding(brs_grammar::specs::ReadExpressions::product_part))]
    fn product_part(&self, tokens: &mut Cursor<'_, '_>) -> Result<Option<ProductPart>, ParseError>
        requires { Nests self.now.depth (F.pre self.now.inside) (F.post self.now.inside) }
        ensures { Gives option_to_list (at spec.product_part self.now.depth tokens.old) result tokens.new }
    {
        let token = expect_product_sign(tokens)?;
        let operand = self.minus(tokens)?;
        Ok(Some(ProductPart {
            place: place_of(&token),
            sign: product_sign(word_of(&token)),
            operand,
        }))
    }

    #[tactic(auto, unfolding(brs_grammar::specs::ReadExpressions::product_parts))]
    fn product_parts(&self, tokens: &mut Cursor<'_, '_>) -> Result<Items<ProductPart>, ParseError>
        requires { Nests self.now.depth (F.pre self.now.inside) (F.post self.now.inside) }
        ensures { Reads (at spec.product_parts self.now.depth tokens.old) result tokens.new }
    {
        many(self.alloc, tokens, is_product_sign, |tokens| {
            self.product_part(tokens)
        })
    }

    #[tactic(auto, unfolding(brs_grammar::specs::ReadExpressions::a_product))]
    fn product(&self, tokens: &mut Cursor<'_, '_>) -> Result<Product, ParseError>
        requires { Nests self.now.depth (F.pre self.now.inside) (F.post self.now.inside) }
        ensures { Reads (at spec.a_product self.now.depth tokens.old) result tokens.new }
    {
        let first = Held::new(self.minus(tokens)?);
        let more = self.product_parts(tokens)?;
        Ok(Product {
            first: first.into_inner(),
            more,
        })
    }

    #[tactic(auto, unfolding(brs_grammar::specs::ReadExpressions::sum_part))]
    fn sum_part(&self, tokens: &mut Cursor<'_, '_>) -> Result<Option<SumPart>, ParseError>
        requires { Nests self.now.depth (F.pre self.now.inside) (F.post self.now.inside) }
        ensures { Gives option_to_list (at spec.sum_part self.now.depth tokens.old) result tokens.new }
    {
        let token = expect_sum_sign(tokens)?;
        let operand = self.product(tokens)?;
        Ok(Some(SumPart {
            place: place_of(&token),
            sign: sum_sign(word_of(&token)),
            operand,
        }))
    }

    #[tactic(auto, unfolding(brs_grammar::specs::ReadExpressions::sum_parts))]
    fn sum_parts(&self, tokens: &mut Cursor<'_, '_>) -> Result<Items<SumPart>, ParseError>
        requires { Nests self.now.depth (F.pre self.now.inside) (F.post self.now.inside) }
        ensures { Reads (at spec.sum_parts self.now.depth tokens.old) result tokens.new }
    {
        many(self.alloc, tokens, is_sum_sign, |tokens| {
            self.sum_part(tokens)
        })
    }

    #[tactic(auto, unfolding(brs_grammar::specs::ReadExpressions::a_sum))]
    fn sum(&self, tokens: &mut Cursor<'_, '_>) -> Result<Sum, ParseError>
        requires { Nests self.now.depth (F.pre self.now.inside) (F.post self.now.inside) }
        ensures { Reads (at spec.a_sum self.now.depth tokens.old) result tokens.new }
    {
        let first = Held::new(self.product(tokens)?);
        let more = self.sum_parts(tokens)?;
        Ok(Sum {
            first: first.into_inner(),
            more,
        })
    }

    #[tactic(auto, unfolding(brs_grammar::specs::ReadExpressions::shift_part))]
    fn shift_part(&self, tokens: &mut Cursor<'_, '_>) -> Result<Option<ShiftPart>, ParseError>
        requires { Nests self.now.depth (F.pre self.now.inside) (F.post self.now.inside) }
        ensures { Gives option_to_list (at spec.shift_part self.now.depth tokens.old) result tokens.new }
    {
        let token = expect_shift_sign(tokens)?;
        let operand = self.sum(tokens)?;
        Ok(Some(ShiftPart {
            place: place_of(&token),
            sign: shift_sign(word_of(&token)),
            operand,
        }))
    }

    #[tactic(auto, unfolding(brs_grammar::specs::ReadExpressions::shift_parts))]
    fn shift_parts(&self, tokens: &mut Cursor<'_, '_>) -> Result<Items<ShiftPart>, ParseError>
        requires { Nests self.now.depth (F.pre self.now.inside) (F.post self.now.inside) }
        ensures { Reads (at spec.shift_parts self.now.depth tokens.old) result tokens.new }
    {
        many(self.alloc, tokens, is_shift_sign, |tokens| {
            self.shift_part(tokens)
        })
    }

    #[tactic(auto, unfolding(brs_grammar::specs::ReadExpressions::a_shift))]
    fn shift(&self, tokens: &mut Cursor<'_, '_>) -> Result<Shift, ParseError>
        requires { Nests self.now.depth (F.pre self.now.inside) (F.post self.now.inside) }
        ensures { Reads (at spec.a_shift self.now.depth tokens.old) result tokens.new }
    {
        let first = Held::new(self.sum(tokens)?);
        let more = self.shift_parts(tokens)?;
        Ok(Shift {
            first: first.into_inner(),
            more,
        })
    }

    #[tactic(auto, unfolding(brs_grammar::specs::ReadExpressions::comparison_part))]
    fn comparison_part(
        &self,
        tokens: &mut Cursor<'_, '_>,
    ) -> Result<Option<ComparisonPart>, ParseError>
        requires { Nests self.now.depth (F.pre self.now.inside) (F.post self.now.inside) }
        ensures { Gives option_to_list (at spec.comparison_part self.now.depth tokens.old) result tokens.new }
    {
        let token = expect_comparison_sign(tokens)?;
        let operand = self.shift(tokens)?;
        Ok(Some(ComparisonPart {
            place: place_of(&token),
            sign: comparison_sign(word_of(&token)),
            operand,
        }))
    }

    #[tactic(auto, unfolding(brs_grammar::specs::ReadExpressions::comparison_parts))]
    fn comparison_parts(
        &self,
        tokens: &mut Cursor<'_, '_>,
    ) -> Result<Items<ComparisonPart>, ParseError>
        requires { Nests self.now.depth (F.pre self.now.inside) (F.post self.now.inside) }
        ensures { Reads (at spec.comparison_parts self.now.depth tokens.old) result tokens.new }
    {
        many(self.alloc, tokens, is_comparison_sign, |tokens| {
            self.comparison_part(tokens)
        })
    }

    #[tactic(auto, unfolding(brs_grammar::specs::ReadExpressions::a_comparison))]
    fn comparison(&self, tokens: &mut Cursor<'_, '_>) -> Result<Comparison, ParseError>
        requires { Nests self.now.depth (F.pre self.now.inside) (F.post self.now.inside) }
        ensures { Reads (at spec.a_comparison self.now.depth tokens.old) result tokens.new }
    {
        let first = Held::new(self.shift(tokens)?);
        let more = self.comparison_parts(tokens)?;
        Ok(Comparison {
            first: first.into_inner(),
            more,
        })
    }

    #[tactic(auto, unfolding(brs_grammar::specs::ReadExpressions::not_))]
    fn not(&self, tokens: &mut Cursor<'_, '_>) -> Result<Negation, ParseError>
        requires { Nests self.now.depth (F.pre self.now.inside) (F.post self.now.inside) }
        ensures { Reads (at spec.not_ self.now.depth tokens.old) result tokens.new }
    {
        if self.depth == 0 {
            return Err(tokens.refuse());
        }
        let token = tokens.expect(Word::Not)?;
        let inner = self.inner_negation(tokens)?;
        let operand = Boxed::new(self.alloc, inner)?;
        Ok(Negation::Not(place_of(&token), operand))
    }

    #[tactic(auto, unfolding(brs_grammar::specs::ReadExpressions::plain_negation))]
    fn plain_negation(&self, tokens: &mut Cursor<'_, '_>) -> Result<Negation, ParseError>
        requires { Nests self.now.depth (F.pre self.now.inside) (F.post self.now.inside) }
        ensures { Reads (at spec.plain_negation self.now.depth tokens.old) result tokens.new }
    {
        let comparison = self.comparison(tokens)?;
        Ok(Negation::Plain(comparison))
    }

    /// `not` before an operand, or a comparison.
    #[tactic(auto, unfolding(brs_grammar::specs::ReadExpressions::a_negation, grammar_rules::specs::Words::same_word))]
    pub fn negation(&self, tokens: &mut Cursor<'_, '_>) -> Result<Negation, ParseError>
        requires { Nests self.now.depth (F.pre self.now.inside) (F.post self.now.inside) }
        ensures { Reads (at spec.a_negation self.now.depth tokens.old) result tokens.new }
    {
        match tokens.peek() {
            Word::Not => self.not(tokens),
            _ => self.plain_negation(tokens),
        }
    }

    #[tactic(auto, unfolding(brs_grammar::specs::ReadExpressions::and_part))]
    fn and_part(&self, tokens: &mut Cursor<'_, '_>) -> Result<Option<AndPart>, ParseError>
        requires { Nests self.now.depth (F.pre self.now.inside) (F.post self.now.inside) }
        ensures { Gives option_to_list (at spec.and_part self.now.depth tokens.old) result tokens.new }
    {
        let token = tokens.expect(Word::And)?;
        let operand = self.negation(tokens)?;
        Ok(Some(AndPart {
            place: place_of(&token),
            operand,
        }))
    }

    #[tactic(auto, unfolding(brs_grammar::specs::ReadExpressions::and_parts))]
    fn and_parts(&self, tokens: &mut Cursor<'_, '_>) -> Result<Items<AndPart>, ParseError>
        requires { Nests self.now.depth (F.pre self.now.inside) (F.post self.now.inside) }
        ensures { Reads (at spec.and_parts self.now.depth tokens.old) result tokens.new }
    {
        many(
            self.alloc,
            tokens,
            |word| same_word(Word::And, word),
            |tokens| self.and_part(tokens),
        )
    }

    #[tactic(auto, unfolding(brs_grammar::specs::ReadExpressions::a_conjunction))]
    fn conjunction(&self, tokens: &mut Cursor<'_, '_>) -> Result<Conjunction, ParseError>
        requires { Nests self.now.depth (F.pre self.now.inside) (F.post self.now.inside) }
        ensures { Reads (at spec.a_conjunction self.now.depth tokens.old) result tokens.new }
    {
        let first = Held::new(self.negation(tokens)?);
        let more = self.and_parts(tokens)?;
        Ok(Conjunction {
            first: first.into_inner(),
            more,
        })
    }

    #[tactic(auto, unfolding(brs_grammar::specs::ReadExpressions::or_part))]
    fn or_part(&self, tokens: &mut Cursor<'_, '_>) -> Result<Option<OrPart>, ParseError>
        requires { Nests self.now.depth (F.pre self.now.inside) (F.post self.now.inside) }
        ensures { Gives option_to_list (at spec.or_part self.now.depth tokens.old) result tokens.new }
    {
        let token = tokens.expect(Word::Or)?;
        let operand = self.conjunction(tokens)?;
        Ok(Some(OrPart {
            place: place_of(&token),
            operand,
        }))
    }

    #[tactic(auto, unfolding(brs_grammar::specs::ReadExpressions::or_parts))]
    fn or_parts(&self, tokens: &mut Cursor<'_, '_>) -> Result<Items<OrPart>, ParseError>
        requires { Nests self.now.depth (F.pre self.now.inside) (F.post self.now.inside) }
        ensures { Reads (at spec.or_parts self.now.depth tokens.old) result tokens.new }
    {
        many(
            self.alloc,
            tokens,
            |word| same_word(Word::Or, word),
            |tokens| self.or_part(tokens),
        )
    }

    /// A chain of `or`, the whole of an expression.
    #[tactic(auto, unfolding(brs_grammar::specs::ReadExpressions::an_expression))]
    pub fn expression(&self, tokens: &mut Cursor<'_, '_>) -> Result<Expression, ParseError>
        requires { Nests self.now.depth (F.pre self.now.inside) (F.post self.now.inside) }
        ensures { Reads (at spec.an_expression self.now.depth tokens.old) result tokens.new }
    {
        let first = Held::new(self.conjunction(tokens)?);
        let more = self.or_parts(tokens)?;
        Ok(Expression {
            first: first.into_inner(),
            more,
        })
    }
}
