//! The tree of a token list, or its first fault.
ghost use Rattle.std.specs.Prelude.{◌≡◌, ℕ, List, Err, IfOk};
ghost use Rattle.brs_grammar.specs.Grammar.{IsFile, IsFirstFault};
ghost use Rattle.brs_grammar.specs.declared.tree.NamedFunction.{NamedFunction};
ghost use Rattle.brs_parser.specs.Answer.{IsFault, IsTree};
ghost use Rattle.brs_parser.specs.FaultPlace as spec;
ghost use Rattle.brs_parser.specs.FaultPlace.{IsSpelled};
ghost use Rattle.brs_parser.specs.declared.fault.SyntaxFault.{SyntaxFault};
ghost use Rattle.brs_parser.specs.declared.source.ParseAnswer;

use crate::fault::{SyntaxFault, fault_at};
use crate::file::file;
use brs_grammar::tree::FileTree;
use brs_tokens::TokenList;
use std::alloc::Global;
use token_cursor::{Cursor, ParseError};

/// Why a token list has no tree.
#[derive(Clone, Copy, Debug, PartialEq, Eq)]
pub enum ParseAnswer {
    /// Its first fault.
    Fault(SyntaxFault),
    /// Memory ran out.
    NoMemory,
}

/// The tree of a source file's tokens, or their first fault.
///
/// Takes time that grows with the number of tokens, and goes no deeper than a fixed multiple of 64 calls.
///
/// Source: BrightScript Language Reference, "Statements" and "Expressions".
pub fn parse(alloc: Global, tokens: &TokenList<'_>) -> Result<FileTree, ParseAnswer>
    requires spelled { IsSpelled tokens.now }
    // What is answered is right.
    ensures tree { IfOk result (λ tree. IsFile tokens.now tree.functions) }
    ensures fault { (fault : SyntaxFault) → result ≡ Err (ParseAnswer.Fault fault) → IsFirstFault tokens.now fault.token × (fault ≡ spec.fault_at tokens.now fault.token) }
    // What is right is answered, unless memory runs out.
    ensures all { (functions : List NamedFunction) → IsFile tokens.now functions → IsTree functions result }
    ensures first { (k : ℕ) → IsFirstFault tokens.now k → IsFault (spec.fault_at tokens.now k) result }
{
    let mut cursor = Cursor::new(tokens);
    match file(alloc, &mut cursor) {
        Ok(functions) => Ok(FileTree { functions }),
        Err(ParseError::Fault) => {
            let at = tokens.len().saturating_sub(cursor.left());
            Err(ParseAnswer::Fault(fault_at(tokens, at)))
        }
        Err(ParseError::NoMemory) => Err(ParseAnswer::NoMemory),
    }
}
