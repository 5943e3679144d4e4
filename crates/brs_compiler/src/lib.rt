//! The compiler: the code of a source file's tree.
//!
//! A caller looks for the first static fault of a tree, and compiles it where there is none.
#![tactic(auto)]

ghost use Rattle.std.specs.Prelude.{◌≡◌, List, [], IfOk};
ghost use Rattle.brs_tokens.specs.Tok.{Tok};
ghost use Rattle.brs_grammar.specs.Grammar.{IsFile};
ghost use Rattle.brs_code.specs.Rule.{IsFilePart};
ghost use Rattle.code_relation.specs.Standing.{CodeAt};

use brs_code::Code;
use brs_grammar::tree::FileTree;
use chan_values::NoMemory;
use code_lowering::lowered;
pub use static_faults::{StaticFault, StaticKind, static_fault};
use std::alloc::Global;
use tree_code::file_drafts;

/// The code of a source file's tree, without scopes. Its named functions stand in the order of their places. The walk reads each part of
/// the tree once.
pub fn compile(alloc: Global, tree: &FileTree) -> Result<Code, NoMemory>
    ensures stands { (tokens : List Tok) → IsFile tokens tree.now.functions → IfOk result (λ code. CodeAt code tree.now) }
    ensures file_part { (tokens : List Tok) → IsFile tokens tree.now.functions → IfOk result IsFilePart }
    ensures scopes { IfOk result (λ code. code.scopes ≡ []) }
{
    let drafts = file_drafts(alloc, tree)?;
    lowered(alloc, drafts.as_slice())
}
