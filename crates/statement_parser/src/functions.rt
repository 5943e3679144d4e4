//! What follows the name of a function.
ghost use Rattle.std.specs.Prelude.{◌≡◌};
ghost use Rattle.std.specs.Option.{option_to_list};
ghost use Rattle.token_cursor.specs.Reads.{Gives, Reads};
ghost use Rattle.brs_grammar.specs.ReadFunctions as spec;
ghost use Rattle.brs_grammar.specs.ReadFunctions.{at};
ghost use Rattle.expression_parser.specs.Nests.{Nests};
ghost use Rattle.grammar_rules.specs.Reading as reading;
ghost use Rattle.grammar_rules.specs.Words as rules;
ghost use Rattle.grammar_rules.specs.declared.word.Word.TheVariants as word;

use crate::statements::Statements;
use crate::words::{optional_type, separator};
use brs_grammar::tree::{Expression, Parameter, Rest};
use expression_parser::{Inner, Part, name_of};
use grammar_rules::{Word, is_name, same_word};
use sqlite_items::Items;
use std::alloc::Global;
use token_cursor::{Cursor, Held, ParseError, many, prepend};

impl<F: Fn(Global, &mut Cursor<'_, '_>, usize, Part) -> Result<Inner, ParseError>> Statements<F> {
    #[tactic(auto, unfolding(brs_grammar::specs::ReadFunctions::default_value))]
    fn default_value(&self, tokens: &mut Cursor<'_, '_>) -> Result<Expression, ParseError>
        requires { Nests self.now.level.depth (F.pre self.now.level.inside) (F.post self.now.level.inside) }
        ensures { Reads (at spec.default_value self.now.level.depth tokens.old) result tokens.new }
    {
        tokens.expect(Word::Equal)?;
        self.level.expression(tokens)
    }

    #[tactic(auto, unfolding(grammar_rules::specs::Words::same_word))]
    fn optional_default(
        &self,
        tokens: &mut Cursor<'_, '_>,
    ) -> Result<Option<Expression>, ParseError>
        requires { Nests self.now.level.depth (F.pre self.now.level.inside) (F.post self.now.level.inside) }
        ensures { Reads (reading.optional (rules.same_word word.Equal) (at spec.default_value self.now.level.depth) tokens.old) result tokens.new }
    {
        match tokens.peek() {
            Word::Equal => {
                let value = self.default_value(tokens)?;
                Ok(Some(value))
            }
            _ => Ok(None),
        }
    }

    #[tactic(auto, unfolding(brs_grammar::specs::ReadFunctions::a_parameter))]
    fn parameter(&self, tokens: &mut Cursor<'_, '_>) -> Result<Parameter, ParseError>
        requires { Nests self.now.level.depth (F.pre self.now.level.inside) (F.post self.now.level.inside) }
        ensures { Reads (at spec.a_parameter self.now.level.depth tokens.old) result tokens.new }
    {
        let token = tokens.expect_name()?;
        let name = name_of(self.level.alloc, &token)?;
        let default = Held::new(self.optional_default(tokens)?);
        let kind = optional_type(tokens)?;
        Ok(Parameter {
            name,
            default: default.into_inner(),
            kind,
        })
    }

    #[tactic(auto, unfolding(brs_grammar::specs::ReadFunctions::next_parameter))]
    fn next_parameter(&self, tokens: &mut Cursor<'_, '_>) -> Result<Option<Parameter>, ParseError>
        requires { Nests self.now.level.depth (F.pre self.now.level.inside) (F.post self.now.level.inside) }
        ensures { Gives option_to_list (at spec.next_parameter self.now.level.depth tokens.old) result tokens.new }
    {
        tokens.expect(Word::Comma)?;
        let parameter = self.parameter(tokens)?;
        Ok(Some(parameter))
    }

    #[tactic(auto, unfolding(brs_grammar::specs::ReadFunctions::next_parameters))]
    fn next_parameters(&self, tokens: &mut Cursor<'_, '_>) -> Result<Items<Parameter>, ParseError>
        requires { Nests self.now.level.depth (F.pre self.now.level.inside) (F.post self.now.level.inside) }
        ensures { Reads (at spec.next_parameters self.now.level.depth tokens.old) result tokens.new }
    {
        many(
            self.level.alloc,
            tokens,
            |word| same_word(Word::Comma, word),
            |tokens| self.next_parameter(tokens),
        )
    }

    #[tactic(auto, unfolding(brs_grammar::specs::ReadFunctions::some_parameters))]
    fn some_parameters(&self, tokens: &mut Cursor<'_, '_>) -> Result<Items<Parameter>, ParseError>
        requires { Nests self.now.level.depth (F.pre self.now.level.inside) (F.post self.now.level.inside) }
        ensures { Reads (at spec.some_parameters self.now.level.depth tokens.old) result tokens.new }
    {
        let first = Held::new(self.parameter(tokens)?);
        let more = self.next_parameters(tokens)?;
        let all = prepend(self.level.alloc, Some(first.into_inner()), more)?;
        Ok(all)
    }

    #[tactic(auto, unfolding(brs_grammar::specs::ReadFunctions::all_parameters))]
    fn all_parameters(&self, tokens: &mut Cursor<'_, '_>) -> Result<Items<Parameter>, ParseError>
        requires { Nests self.now.level.depth (F.pre self.now.level.inside) (F.post self.now.level.inside) }
        ensures { Reads (at spec.all_parameters self.now.level.depth tokens.old) result tokens.new }
    {
        if is_name(tokens.peek()) {
            self.some_parameters(tokens)
        } else {
            Ok(Items::new(self.level.alloc))
        }
    }

    /// The parameters of a function, the type of its value, and its body.
    #[tactic(auto, unfolding(brs_grammar::specs::ReadFunctions::a_rest))]
    pub fn rest(&self, tokens: &mut Cursor<'_, '_>) -> Result<Rest, ParseError>
        requires { Nests self.now.level.depth (F.pre self.now.level.inside) (F.post self.now.level.inside) }
        ensures { Reads (at spec.a_rest self.now.level.depth tokens.old) result tokens.new }
    {
        tokens.expect(Word::Open)?;
        let parameters = Held::new(self.all_parameters(tokens)?);
        tokens.expect(Word::Close)?;
        let value = optional_type(tokens)?;
        separator(tokens)?;
        let body = self.block(tokens)?;
        Ok(Rest {
            parameters: parameters.into_inner(),
            value,
            body,
        })
    }
}
