//! The tokens of assignments and types.
ghost use Rattle.std.specs.Prelude.{◌≡◌};
ghost use Rattle.brs_grammar.specs.StatementWords as spec;
ghost use Rattle.brs_tokens.specs.Tok.{tok_of};
ghost use Rattle.grammar_rules.specs.Reading as reading;
ghost use Rattle.token_cursor.specs.Reads.{Gives};

use brs_grammar::classes::{is_count_sign, is_type, is_update_sign};
use brs_tokens::Token;
use token_cursor::{Cursor, ParseError};

/// The next token, if it is `+=`, `-=`, `*=` or `\=`.
pub fn expect_update_sign<'a>(tokens: &mut Cursor<'_, 'a>) -> Result<Token<'a>, ParseError>
    ensures { Gives tok_of (reading.one spec.is_update_sign tokens.old) result tokens.new }
{
    tokens.expect_if(is_update_sign)
}

/// The next token, if it is `++` or `--`.
pub fn expect_count_sign<'a>(tokens: &mut Cursor<'_, 'a>) -> Result<Token<'a>, ParseError>
    ensures { Gives tok_of (reading.one spec.is_count_sign tokens.old) result tokens.new }
{
    tokens.expect_if(is_count_sign)
}

/// The next token, if it is a type.
pub fn expect_type<'a>(tokens: &mut Cursor<'_, 'a>) -> Result<Token<'a>, ParseError>
    ensures { Gives tok_of (reading.one spec.is_type tokens.old) result tokens.new }
{
    tokens.expect_if(is_type)
}
