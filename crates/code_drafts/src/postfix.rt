//! What stands round a part behind a value.
ghost use Rattle.std.specs.Prelude.{◌≡◌, ◌≤◌, ◌<◌, ◌+◌, length, drop, take, map, IfOk};
ghost use Rattle.brs_grammar.specs.View.{postfix_of};
ghost use Rattle.code_drafts.specs.DraftCode as drafts;

use crate::draft::Draft;
use crate::words::member_text;
use brs_code::Instr;
use brs_grammar::tree::Postfix;
use chan_values::{NoMemory, Text};
use std::alloc::Global;

/// The name of a member as a text, `None` for any other part.
#[tactic(auto, using(crate::proofs::Tails::names))]
fn member_name(alloc: Global, x: &Postfix) -> Result<Option<Text>, NoMemory>
    ensures { IfOk result (λ name. name ≡ drafts.member_name (postfix_of x.now)) }
{
    match x {
        Postfix::Member(_, name) => Ok(Some(member_text(alloc, name)?)),
        Postfix::Index(_, _) => Ok(None),
        Postfix::Arguments(_, _) => Ok(None),
    }
}

/// The name of the member directly before the part at this place.
#[tactic(auto, using(crate::proofs::Tails::before_first, crate::proofs::Tails::before_other))]
pub fn name_before(alloc: Global, parts: &[Postfix], at: usize) -> Result<Option<Text>, NoMemory>
    requires { at < length parts.now }
    ensures { IfOk result (λ name. name ≡ drafts.name_before (map postfix_of parts.now) at) }
{
    if at == 0 {
        Ok(None)
    } else {
        member_name(alloc, &parts[at - 1])
    }
}

#[tactic(auto, using(crate::proofs::Tails::calling))]
fn is_arguments(x: &Postfix) -> bool
    ensures { result ≡ drafts.calls_one (postfix_of x.now) }
{
    match x {
        Postfix::Arguments(_, _) => true,
        Postfix::Member(_, _) => false,
        Postfix::Index(_, _) => false,
    }
}

/// Whether arguments stand directly behind the part at this place, of so many parts.
#[tactic(auto, using(crate::proofs::Tails::called_last, crate::proofs::Tails::called_other))]
pub fn is_called(parts: &[Postfix], at: usize, count: usize) -> bool
    requires at { at < count }
    requires count { count ≤ length parts.now }
    ensures { result ≡ drafts.calls (drop (at + 1) (take count (map postfix_of parts.now))) }
{
    if at + 1 == count {
        false
    } else {
        is_arguments(&parts[at + 1])
    }
}

/// The instruction of a call, behind a member or behind another value.
pub fn call_draft(name: Option<Text>, line: u32, count: usize) -> Draft
    ensures { result ≡ drafts.call_draft name line count }
{
    match name {
        None => Draft::Plain(Instr::Call(count), line),
        Some(name) => Draft::Word(Instr::CallMember(0, count), line, name),
    }
}
