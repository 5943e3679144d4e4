//! Statements that stand in one line.
ghost use Rattle.std.specs.Prelude.{◌≡◌};
ghost use Rattle.std.specs.Option.{option_to_list};
ghost use Rattle.token_cursor.specs.Reads.{Gives, Reads};
ghost use Rattle.brs_grammar.specs.ReadStatements as spec;
ghost use Rattle.brs_grammar.specs.ReadFunctions.{at};
ghost use Rattle.expression_parser.specs.Nests.{Nests};
ghost use Rattle.grammar_rules.specs.Reading as reading;
ghost use Rattle.brs_grammar.specs.ReadExpressions as expression;
ghost use Rattle.brs_grammar.specs.ReadLeaves as begins;

use crate::signs::{expect_count_sign, expect_update_sign};
use crate::statements::Statements;
use crate::words::exit;
use brs_grammar::classes::{begins_expression, begins_print, is_update_sign};
use brs_grammar::signs::{count_sign, ends_in_call, update_sign};
use brs_grammar::tree::{Expression, Simple, Target};
use expression_parser::{Inner, Part, name_of};
use grammar_rules::{Word, is_name, place_of, same_word, word_of};
use sqlite_items::Items;
use std::alloc::Global;
use token_cursor::{Cursor, Held, ParseError, many, prepend};

impl<F: Fn(Global, &mut Cursor<'_, '_>, usize, Part) -> Result<Inner, ParseError>> Statements<F> {
    #[tactic(auto, unfolding(brs_grammar::specs::ReadStatements::a_target))]
    fn target(&self, tokens: &mut Cursor<'_, '_>) -> Result<Target, ParseError>
        requires { Nests self.now.level.depth (F.pre self.now.level.inside) (F.post self.now.level.inside) }
        ensures { Reads (at spec.a_target self.now.level.depth tokens.old) result tokens.new }
    {
        let token = tokens.expect_name()?;
        let name = name_of(self.level.alloc, &token)?;
        let more = self.level.postfixes(tokens)?;
        Ok(Target { name, more })
    }

    #[tactic(auto, unfolding(brs_grammar::specs::ReadStatements::assign))]
    fn assign(&self, tokens: &mut Cursor<'_, '_>, target: Target) -> Result<Simple, ParseError>
        requires { Nests self.now.level.depth (F.pre self.now.level.inside) (F.post self.now.level.inside) }
        ensures { Reads (at spec.assign self.now.level.depth target tokens.old) result tokens.new }
    {
        let sign = tokens.expect(Word::Equal)?;
        let value = self.level.expression(tokens)?;
        Ok(Simple::Assign(target, place_of(&sign), value))
    }

    #[tactic(auto, unfolding(brs_grammar::specs::ReadStatements::update_))]
    fn update(&self, tokens: &mut Cursor<'_, '_>, target: Target) -> Result<Simple, ParseError>
        requires { Nests self.now.level.depth (F.pre self.now.level.inside) (F.post self.now.level.inside) }
        ensures { Reads (at spec.update_ self.now.level.depth target tokens.old) result tokens.new }
    {
        let sign = expect_update_sign(tokens)?;
        let value = self.level.expression(tokens)?;
        let operator = update_sign(word_of(&sign));
        Ok(Simple::Update(target, place_of(&sign), operator, value))
    }

    #[tactic(auto, unfolding(brs_grammar::specs::ReadStatements::count_))]
    fn count(&self, tokens: &mut Cursor<'_, '_>, target: Target) -> Result<Simple, ParseError>
        requires { Nests self.now.level.depth (F.pre self.now.level.inside) (F.post self.now.level.inside) }
        ensures { Reads (at spec.count_ self.now.level.depth target tokens.old) result tokens.new }
    {
        let sign = expect_count_sign(tokens)?;
        let operator = count_sign(word_of(&sign));
        Ok(Simple::Count(target, place_of(&sign), operator))
    }

    /// A statement that begins with a name: a call, or what is done to a target.
    #[tactic(auto, unfolding(brs_grammar::specs::ReadStatements::targeted, grammar_rules::specs::Words::same_word))]
    fn targeted(&self, tokens: &mut Cursor<'_, '_>) -> Result<Simple, ParseError>
        requires { Nests self.now.level.depth (F.pre self.now.level.inside) (F.post self.now.level.inside) }
        ensures { Reads (at spec.targeted self.now.level.depth tokens.old) result tokens.new }
    {
        let target = self.target(tokens)?;
        if ends_in_call(&target) {
            return Ok(Simple::Call(target));
        }
        match tokens.peek() {
            Word::Equal => self.assign(tokens, target),
            word if is_update_sign(word) => self.update(tokens, target),
            _ => self.count(tokens, target),
        }
    }

    fn optional_expression(
        &self,
        tokens: &mut Cursor<'_, '_>,
    ) -> Result<Option<Expression>, ParseError>
        requires { Nests self.now.level.depth (F.pre self.now.level.inside) (F.post self.now.level.inside) }
        ensures { Reads (reading.optional begins.begins_expression (at expression.an_expression self.now.level.depth) tokens.old) result tokens.new }
    {
        if begins_expression(tokens.peek()) {
            let value = self.level.expression(tokens)?;
            Ok(Some(value))
        } else {
            Ok(None)
        }
    }

    #[tactic(auto, unfolding(brs_grammar::specs::ReadStatements::return_))]
    fn return_value(&self, tokens: &mut Cursor<'_, '_>) -> Result<Simple, ParseError>
        requires { Nests self.now.level.depth (F.pre self.now.level.inside) (F.post self.now.level.inside) }
        ensures { Reads (at spec.return_ self.now.level.depth tokens.old) result tokens.new }
    {
        let token = tokens.expect(Word::Return)?;
        let value = self.optional_expression(tokens)?;
        Ok(Simple::Return(place_of(&token), value))
    }

    /// A statement that stands in one line.
    #[tactic(auto, unfolding(brs_grammar::specs::ReadStatements::a_simple, grammar_rules::specs::Words::same_word))]
    pub fn simple(&self, tokens: &mut Cursor<'_, '_>) -> Result<Simple, ParseError>
        requires { Nests self.now.level.depth (F.pre self.now.level.inside) (F.post self.now.level.inside) }
        ensures { Reads (at spec.a_simple self.now.level.depth tokens.old) result tokens.new }
    {
        match tokens.peek() {
            word if is_name(word) => self.targeted(tokens),
            word if begins_print(word) => self.print(tokens),
            Word::Return => self.return_value(tokens),
            _ => exit(tokens),
        }
    }

    #[tactic(auto, unfolding(brs_grammar::specs::ReadStatements::next_simple))]
    fn next_simple(&self, tokens: &mut Cursor<'_, '_>) -> Result<Option<Simple>, ParseError>
        requires { Nests self.now.level.depth (F.pre self.now.level.inside) (F.post self.now.level.inside) }
        ensures { Gives option_to_list (at spec.next_simple self.now.level.depth tokens.old) result tokens.new }
    {
        tokens.expect(Word::Colon)?;
        let simple = self.simple(tokens)?;
        Ok(Some(simple))
    }

    #[tactic(auto, unfolding(brs_grammar::specs::ReadStatements::next_simples))]
    fn next_simples(&self, tokens: &mut Cursor<'_, '_>) -> Result<Items<Simple>, ParseError>
        requires { Nests self.now.level.depth (F.pre self.now.level.inside) (F.post self.now.level.inside) }
        ensures { Reads (at spec.next_simples self.now.level.depth tokens.old) result tokens.new }
    {
        many(
            self.level.alloc,
            tokens,
            |word| same_word(Word::Colon, word),
            |tokens| self.next_simple(tokens),
        )
    }

    /// Statements of one line, with colons between them.
    #[tactic(auto, unfolding(brs_grammar::specs::ReadStatements::run))]
    pub fn run(&self, tokens: &mut Cursor<'_, '_>) -> Result<Items<Simple>, ParseError>
        requires { Nests self.now.level.depth (F.pre self.now.level.inside) (F.post self.now.level.inside) }
        ensures { Reads (at spec.run self.now.level.depth tokens.old) result tokens.new }
    {
        let first = Held::new(self.simple(tokens)?);
        let more = self.next_simples(tokens)?;
        let all = prepend(self.level.alloc, Some(first.into_inner()), more)?;
        Ok(all)
    }
}
