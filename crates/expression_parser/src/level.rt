//! A level of nesting.
//!
//! It takes the parser of what stands inside as a parameter, so that no function below leads back to itself and each is proved by itself.
ghost use Rattle.token_cursor.specs.Reads.{Reads};
ghost use Rattle.brs_grammar.specs.ReadFunctions as spec;
ghost use Rattle.expression_parser.specs.Nests.{Nests};

use brs_grammar::tree::{Expression, Minus, Negation, Pair, Rest, Statement};
use sqlite_items::Items;
use std::alloc::Global;
use token_cursor::{Cursor, ParseError, discard};

/// What stands inside a form, and takes one from the number of forms that may stand inside one another.
#[derive(Clone, Copy, Debug, PartialEq, Eq)]
pub enum Part {
    /// The expression in brackets.
    Expression,
    /// The arguments of a call.
    Arguments,
    /// The items of an array.
    Items,
    /// The pairs of an associative array.
    Pairs,
    /// The operand of `not`.
    Negation,
    /// The operand of a `-` before a value.
    Minus,
    /// The statements of a block.
    Block,
    /// The parameters and the body of a function without a name.
    Rest,
}

/// A part as it was read.
#[derive(Drop)]
pub enum Inner {
    /// Of `Part::Expression`.
    Expression(Expression),
    /// Of `Part::Arguments`.
    Arguments(Items<Expression>),
    /// Of `Part::Items`.
    Items(Items<Expression>),
    /// Of `Part::Pairs`.
    Pairs(Items<Pair>),
    /// Of `Part::Negation`.
    Negation(Negation),
    /// Of `Part::Minus`.
    Minus(Minus),
    /// Of `Part::Block`.
    Block(Items<Statement>),
    /// Of `Part::Rest`.
    Rest(Rest),
}

/// A level of nesting: how many more forms may stand inside one another, and the parser of what stands inside.
#[derive(Clone, Copy)]
pub struct Level<F> {
    /// What memory is taken from.
    pub alloc: Global,
    /// How many more forms may stand inside one another.
    pub depth: usize,
    /// Reads the part that is asked for, at the depth that it is given.
    pub inside: F,
}

impl<F: Fn(Global, &mut Cursor<'_, '_>, usize, Part) -> Result<Inner, ParseError>> Level<F> {
    /// The expression in brackets or in an index, at one level of nesting less.
    pub fn inner_expression(&self, tokens: &mut Cursor<'_, '_>) -> Result<Expression, ParseError>
        requires { Nests self.now.depth (F.pre self.now.inside) (F.post self.now.inside) }
        ensures { Reads ((spec.inside self.now.depth).expression tokens.old) result tokens.new }
    {
        match (self.inside)(self.alloc, tokens, self.depth, Part::Expression)? {
            Inner::Expression(inner) => Ok(inner),
            other => {
                discard(other);
                Err(tokens.refuse())
            }
        }
    }

    /// The arguments of a call, at one level of nesting less.
    pub fn inner_arguments(
        &self,
        tokens: &mut Cursor<'_, '_>,
    ) -> Result<Items<Expression>, ParseError>
        requires { Nests self.now.depth (F.pre self.now.inside) (F.post self.now.inside) }
        ensures { Reads ((spec.inside self.now.depth).arguments tokens.old) result tokens.new }
    {
        match (self.inside)(self.alloc, tokens, self.depth, Part::Arguments)? {
            Inner::Arguments(inner) => Ok(inner),
            other => {
                discard(other);
                Err(tokens.refuse())
            }
        }
    }

    /// The items of an array, at one level of nesting less.
    pub fn inner_items(&self, tokens: &mut Cursor<'_, '_>) -> Result<Items<Expression>, ParseError>
        requires { Nests self.now.depth (F.pre self.now.inside) (F.post self.now.inside) }
        ensures { Reads ((spec.inside self.now.depth).items tokens.old) result tokens.new }
    {
        match (self.inside)(self.alloc, tokens, self.depth, Part::Items)? {
            Inner::Items(inner) => Ok(inner),
            other => {
                discard(other);
                Err(tokens.refuse())
            }
        }
    }

    /// The pairs of an associative array, at one level of nesting less.
    pub fn inner_pairs(&self, tokens: &mut Cursor<'_, '_>) -> Result<Items<Pair>, ParseError>
        requires { Nests self.now.depth (F.pre self.now.inside) (F.post self.now.inside) }
        ensures { Reads ((spec.inside self.now.depth).pairs tokens.old) result tokens.new }
    {
        match (self.inside)(self.alloc, tokens, self.depth, Part::Pairs)? {
            Inner::Pairs(inner) => Ok(inner),
            other => {
                discard(other);
                Err(tokens.refuse())
            }
        }
    }

    /// The operand of `not`, at one level of nesting less.
    pub fn inner_negation(&self, tokens: &mut Cursor<'_, '_>) -> Result<Negation, ParseError>
        requires { Nests self.now.depth (F.pre self.now.inside) (F.post self.now.inside) }
        ensures { Reads ((spec.inside self.now.depth).negation tokens.old) result tokens.new }
    {
        match (self.inside)(self.alloc, tokens, self.depth, Part::Negation)? {
            Inner::Negation(inner) => Ok(inner),
            other => {
                discard(other);
                Err(tokens.refuse())
            }
        }
    }

    /// The operand of a `-` before a value, at one level of nesting less.
    pub fn inner_minus(&self, tokens: &mut Cursor<'_, '_>) -> Result<Minus, ParseError>
        requires { Nests self.now.depth (F.pre self.now.inside) (F.post self.now.inside) }
        ensures { Reads ((spec.inside self.now.depth).minus tokens.old) result tokens.new }
    {
        match (self.inside)(self.alloc, tokens, self.depth, Part::Minus)? {
            Inner::Minus(inner) => Ok(inner),
            other => {
                discard(other);
                Err(tokens.refuse())
            }
        }
    }

    /// The statements of a block, at one level of nesting less.
    pub fn inner_block(&self, tokens: &mut Cursor<'_, '_>) -> Result<Items<Statement>, ParseError>
        requires { Nests self.now.depth (F.pre self.now.inside) (F.post self.now.inside) }
        ensures { Reads ((spec.inside self.now.depth).block tokens.old) result tokens.new }
    {
        match (self.inside)(self.alloc, tokens, self.depth, Part::Block)? {
            Inner::Block(inner) => Ok(inner),
            other => {
                discard(other);
                Err(tokens.refuse())
            }
        }
    }

    /// The parameters and the body of a function without a name, at one level of nesting less.
    pub fn inner_rest(&self, tokens: &mut Cursor<'_, '_>) -> Result<Rest, ParseError>
        requires { Nests self.now.depth (F.pre self.now.inside) (F.post self.now.inside) }
        ensures { Reads ((spec.inside self.now.depth).rest tokens.old) result tokens.new }
    {
        match (self.inside)(self.alloc, tokens, self.depth, Part::Rest)? {
            Inner::Rest(inner) => Ok(inner),
            other => {
                discard(other);
                Err(tokens.refuse())
            }
        }
    }
}
