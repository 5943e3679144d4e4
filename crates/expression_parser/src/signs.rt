//! The tokens of operators.
ghost use Rattle.std.specs.Prelude.{◌≡◌};
ghost use Rattle.brs_grammar.specs.Leaves as spec;
ghost use Rattle.brs_tokens.specs.Tok.{tok_of};
ghost use Rattle.grammar_rules.specs.Reading as reading;
ghost use Rattle.token_cursor.specs.Reads.{Gives};

use brs_grammar::classes::{is_comparison_sign, is_product_sign, is_shift_sign, is_sum_sign};
use brs_tokens::Token;
use token_cursor::{Cursor, ParseError};

/// The next token, if it is `*`, `\` or `mod`.
pub fn expect_product_sign<'a>(tokens: &mut Cursor<'_, 'a>) -> Result<Token<'a>, ParseError>
    ensures { Gives tok_of (reading.one spec.is_product_sign tokens.old) result tokens.new }
{
    tokens.expect_if(is_product_sign)
}

/// The next token, if it is `+` or `-`.
pub fn expect_sum_sign<'a>(tokens: &mut Cursor<'_, 'a>) -> Result<Token<'a>, ParseError>
    ensures { Gives tok_of (reading.one spec.is_sum_sign tokens.old) result tokens.new }
{
    tokens.expect_if(is_sum_sign)
}

/// The next token, if it is `<<` or `>>`.
pub fn expect_shift_sign<'a>(tokens: &mut Cursor<'_, 'a>) -> Result<Token<'a>, ParseError>
    ensures { Gives tok_of (reading.one spec.is_shift_sign tokens.old) result tokens.new }
{
    tokens.expect_if(is_shift_sign)
}

/// The next token, if it is `=`, `<>`, `<`, `>`, `<=` or `>=`.
pub fn expect_comparison_sign<'a>(tokens: &mut Cursor<'_, 'a>) -> Result<Token<'a>, ParseError>
    ensures { Gives tok_of (reading.one spec.is_comparison_sign tokens.old) result tokens.new }
{
    tokens.expect_if(is_comparison_sign)
}
