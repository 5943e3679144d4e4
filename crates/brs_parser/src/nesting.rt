//! What stands inside a form is read at one level of nesting less.
ghost use Rattle.brs_grammar.specs.ReadFunctions as spec;
ghost use Rattle.expression_parser.specs.Nests.{Comes};

use expression_parser::{Inner, Level, Part};
use statement_parser::Statements;
use std::alloc::Global;
use token_cursor::{Cursor, ParseError};

/// The part that is asked for, where `depth` forms may stand inside one another. At 0 nothing stands there.
#[cycle(nesting)]
pub fn inside(
    alloc: Global,
    tokens: &mut Cursor<'_, '_>,
    depth: usize,
    part: Part,
) -> Result<Inner, ParseError>
    ensures { Comes (spec.inside depth) part tokens.old result tokens.new }
{
    if depth == 0 {
        return Err(tokens.refuse());
    }
    let level = Level {
        alloc,
        depth: depth - 1,
        inside,
    };
    Statements { level }.part(tokens, part)
}
