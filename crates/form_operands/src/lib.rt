//! The forms of a source file have as many operands as they take.
#![tactic(auto)]

ghost use Rattle.std.specs.Prelude.{List, map, All};
ghost use Rattle.brs_tokens.specs.Tok.{Tok};
ghost use Rattle.brs_grammar.specs.declared.tree.NamedFunction.{NamedFunction};
ghost use Rattle.brs_grammar.specs.Grammar.{IsFile};
ghost use Rattle.code_relation.specs.Standing.{named_form};
ghost use Rattle.code_lowering.specs.Takes.{FunctionTakes};

/// In a file that the grammar gives, each form has as many operands as its instruction takes, wherever it stands.
pub fn files_have_operands()
    ensures { (tokens : List Tok) (functions : List NamedFunction) → IsFile tokens functions → All FunctionTakes (map named_form functions) }
{}
