//! What sets a target, and what reads it for `+=` and its kin.
ghost use Rattle.std.specs.Prelude.{◌≡◌, IfOk};
ghost use Rattle.code_drafts.specs.StatementCode as statements;

use crate::draft::Draft;
use crate::words::{name_draft, slot_draft, word_draft};
use brs_code::Instr;
use brs_grammar::tree::{Name, Postfix};
use chan_values::NoMemory;
use std::alloc::Global;

/// The instruction that sets a target.
#[tactic(auto, using(crate::proofs::Targets::set_name, crate::proofs::Targets::set_member, crate::proofs::Targets::set_index, crate::proofs::Targets::set_arguments))]
pub fn set_draft(alloc: Global, name: &Name, more: &[Postfix]) -> Result<Draft, NoMemory>
    ensures { IfOk result (λ d. d ≡ statements.set_of name.now more.now) }
{
    if more.len() == 0 {
        return slot_draft(alloc, Instr::Store(0), name.place.line, name);
    }
    match &more[more.len() - 1] {
        Postfix::Member(place, word) => word_draft(alloc, Instr::StoreMember(0), place.line, word),
        Postfix::Index(place, _) => Ok(Draft::Plain(Instr::StoreIndex, place.line)),
        Postfix::Arguments(place, _) => Ok(Draft::Plain(Instr::StoreIndex, place.line)),
    }
}

/// The instruction that reads a target and keeps its operands.
#[tactic(auto, using(crate::proofs::Targets::keep_name, crate::proofs::Targets::keep_member, crate::proofs::Targets::keep_index, crate::proofs::Targets::keep_arguments))]
pub fn keep_draft(alloc: Global, name: &Name, more: &[Postfix]) -> Result<Draft, NoMemory>
    ensures { IfOk result (λ d. d ≡ statements.keep_of name.now more.now) }
{
    if more.len() == 0 {
        return name_draft(alloc, name, name.place.line);
    }
    match &more[more.len() - 1] {
        Postfix::Member(place, word) => word_draft(alloc, Instr::KeepMember(0), place.line, word),
        Postfix::Index(place, _) => Ok(Draft::Plain(Instr::KeepIndex, place.line)),
        Postfix::Arguments(place, _) => Ok(Draft::Plain(Instr::KeepIndex, place.line)),
    }
}
