//! Instructions at their places.
ghost use Rattle.std.specs.Prelude.{◌≡◌, ◌+◌, IfOk};
ghost use Rattle.lowering_parts.specs.Places as places;

use brs_code::Instr;
use chan_values::NoMemory;

/// The sum of two numbers of instructions or operands. One that is too large for a machine word is too large for memory.
pub(crate) fn sum(a: usize, b: usize) -> Result<usize, NoMemory>
    ensures { IfOk result (λ n. n ≡ a + b) }
{
    match a.checked_add(b) {
        Some(n) => Ok(n),
        None => Err(NoMemory),
    }
}

/// The place to which a jump leads that passes over so many instructions.
fn ahead(at: usize, passes: usize) -> Result<usize, NoMemory>
    ensures { IfOk result (λ to. to ≡ places.ahead at passes) }
{
    sum(sum(at, 1)?, passes)
}

/// An instruction whose jumps count instructions, at its place: its jumps lead to places. Takes no memory.
pub fn at_place(at: usize, instr: Instr) -> Result<Instr, NoMemory>
    ensures { IfOk result (λ x. x ≡ places.at_place at instr) }
{
    match instr {
        Instr::AndTest(passes) => Ok(Instr::AndTest(ahead(at, passes)?)),
        Instr::OrTest(passes) => Ok(Instr::OrTest(ahead(at, passes)?)),
        Instr::Branch(passes) => Ok(Instr::Branch(ahead(at, passes)?)),
        Instr::Jump(passes) => Ok(Instr::Jump(ahead(at, passes)?)),
        Instr::Again(by) => Ok(Instr::Again(at.saturating_sub(by))),
        Instr::ForTest(slot, passes) => Ok(Instr::ForTest(slot, ahead(at, passes)?)),
        Instr::ForNext(slot, by) => Ok(Instr::ForNext(slot, at.saturating_sub(by))),
        Instr::ForEach(passes) => Ok(Instr::ForEach(ahead(at, passes)?)),
        Instr::EachNext(slot, by) => Ok(Instr::EachNext(slot, at.saturating_sub(by))),
        Instr::Exit(keeps, passes) => Ok(Instr::Exit(keeps, ahead(at, passes)?)),
        other => Ok(other),
    }
}

/// An instruction with the index of what it names in its table. Takes no memory.
pub fn with_index(index: usize, instr: Instr) -> Instr
    ensures { result ≡ places.with_index index instr }
{
    match instr {
        Instr::Text(_) => Instr::Text(index),
        Instr::Load(_) => Instr::Load(index),
        Instr::Function(_) => Instr::Function(index),
        Instr::MakePairs(_, count) => Instr::MakePairs(index, count),
        Instr::Member(_) => Instr::Member(index),
        Instr::CallMember(_, count) => Instr::CallMember(index, count),
        Instr::Store(_) => Instr::Store(index),
        Instr::StoreMember(_) => Instr::StoreMember(index),
        Instr::KeepMember(_) => Instr::KeepMember(index),
        Instr::Print(_, marks, values) => Instr::Print(index, marks, values),
        Instr::For(_) => Instr::For(index),
        Instr::ForStep(_) => Instr::ForStep(index),
        Instr::ForTest(_, to) => Instr::ForTest(index, to),
        Instr::ForNext(_, to) => Instr::ForNext(index, to),
        Instr::EachNext(_, to) => Instr::EachNext(index, to),
        other => other,
    }
}
