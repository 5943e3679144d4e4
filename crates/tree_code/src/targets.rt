//! The code of what is set, without its operands. Each function puts its instructions in front.
ghost use Rattle.std.specs.Prelude.{◌≡◌, ◌∷◌, OnOk};
ghost use Rattle.brs_code.specs.declared.instr.Instr.TheVariants as i;
ghost use Rattle.code_drafts.specs.declared.draft.Draft.TheVariants as draft;
ghost use Rattle.code_drafts.specs.StatementCode as statements;
ghost use Rattle.brs_grammar.specs.declared.tree.Target.{out-Target};

use brs_code::{Instr, Operator};
use brs_grammar::tree::Target;
use chan_values::NoMemory;
use code_drafts::{Buffer, Draft, keep_draft, set_draft};
use std::alloc::Global;

/// Sets the target.
pub(crate) fn put_set(alloc: Global, code: &mut Buffer, target: &Target) -> Result<(), NoMemory>
    ensures { OnOk result (code.new ≡ statements.set_of (out-Target target.now).name (out-Target target.now).more ∷ code.old) }
{
    code.push(set_draft(alloc, &target.name, target.more.as_slice())?)
}

/// Reads the target, and keeps its operands.
pub(crate) fn put_keep(alloc: Global, code: &mut Buffer, target: &Target) -> Result<(), NoMemory>
    ensures { OnOk result (code.new ≡ statements.keep_of (out-Target target.now).name (out-Target target.now).more ∷ code.old) }
{
    code.push(keep_draft(alloc, &target.name, target.more.as_slice())?)
}

/// Applies the operator and sets the target.
pub(crate) fn put_update(
    alloc: Global,
    code: &mut Buffer,
    target: &Target,
    line: u32,
    operator: Operator,
) -> Result<(), NoMemory>
    ensures { OnOk result (code.new ≡ draft.Plain (i.Binary operator) line ∷ statements.set_of (out-Target target.now).name (out-Target target.now).more ∷ code.old) }
{
    put_set(alloc, code, target)?;
    code.push(Draft::Plain(Instr::Binary(operator), line))
}
