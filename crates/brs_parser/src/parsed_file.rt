//! A parsed source file, which owns its tree.
//!
//! A tree is of many types that hold one another, and a crate that drops one makes and proves the steps of that drop anew. What stands above
//! takes a tree by reference from its owner here, whose drop is one call.
ghost use Rattle.std.specs.Prelude.{◌≡◌, ℕ, List, Err, IfOk};
ghost use Rattle.brs_grammar.specs.Grammar.{IsFile, IsFirstFault};
ghost use Rattle.brs_grammar.specs.declared.tree.NamedFunction.{NamedFunction};
ghost use Rattle.brs_parser.specs.FaultPlace as spec;
ghost use Rattle.brs_parser.specs.FaultPlace.{IsSpelled};
ghost use Rattle.brs_parser.specs.declared.fault.SyntaxFault.{SyntaxFault};
ghost use Rattle.brs_parser.specs.declared.source.ParseAnswer;
ghost use Rattle.brs_parser.specs.Parsed.{IsFault, IsParsed};

use crate::source::{ParseAnswer, parse};
use brs_grammar::tree::FileTree;
use brs_tokens::TokenList;
use std::alloc::Global;
use std::marker::Model;

/// A parsed source file, which contracts see as its named functions in order. It owns the tree.
pub struct ParsedFile {
    tree: FileTree,
}

impl Model for ParsedFile {
    ghost use Rattle.std.specs.Prelude.{List};
    ghost use Rattle.std.specs.Coded.{coded_list};
    ghost use Rattle.brs_grammar.specs.contracts.tree.NamedFunction as named;
    ghost use Rattle.brs_grammar.specs.declared.tree.NamedFunction.{NamedFunction};

    ghost Value = { List NamedFunction };

    ghost coded = { coded_list named.the_row.coded };

    ghost view = { λ file. file.tree.functions };
}

impl Drop for ParsedFile {
    fn drop(self) {
        let ParsedFile { tree: _tree } = self;
    }
}

impl ParsedFile {
    /// The parsed file of a source file's tokens, or their first fault, as `parse` finds it.
    pub fn parse(alloc: Global, tokens: &TokenList<'_>) -> Result<ParsedFile, ParseAnswer>
        requires spelled { IsSpelled tokens.now }
        // What is answered is right.
        ensures tree { IfOk result (λ functions. IsFile tokens.now functions) }
        ensures fault { (fault : SyntaxFault) → result ≡ Err (ParseAnswer.Fault fault) → IsFirstFault tokens.now fault.token × (fault ≡ spec.fault_at tokens.now fault.token) }
        // What is right is answered, unless memory runs out.
        ensures all { (functions : List NamedFunction) → IsFile tokens.now functions → IsParsed functions result }
        ensures first { (k : ℕ) → IsFirstFault tokens.now k → IsFault (spec.fault_at tokens.now k) result }
    {
        match parse(alloc, tokens) {
            Ok(tree) => Ok(ParsedFile { tree }),
            Err(answer) => Err(answer),
        }
    }

    /// The tree of the file.
    pub fn tree(&self) -> &FileTree
        ensures { result.now.functions ≡ self.now }
    {
        &self.tree
    }
}
