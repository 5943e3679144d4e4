//! Numbers of operands.
ghost use Rattle.std.specs.Prelude.{◌≡◌, ◌+◌, ◌-◌, IfOk};
ghost use Rattle.lowering_parts.specs.Operands as operands;

use crate::places::sum;
use brs_code::Instr;
use chan_values::NoMemory;

/// Behind a call of a value with so many arguments.
fn after_call(count: usize, before: usize) -> Result<usize, NoMemory>
    ensures { IfOk result (λ n. n ≡ before - (count + 1) + 1) }
{
    sum(before.saturating_sub(sum(count, 1)?), 1)
}

/// Behind an instruction that takes so many and leaves so many.
fn moved(before: usize, takes: usize, leaves: usize) -> Result<usize, NoMemory>
    ensures { IfOk result (λ n. n ≡ before - takes + leaves) }
{
    sum(before.saturating_sub(takes), leaves)
}

/// How many operands stand behind an instruction that begins with so many. Takes no memory.
pub fn operands_after(instr: Instr, before: usize) -> Result<usize, NoMemory>
    ensures { IfOk result (λ n. n ≡ operands.after instr before) }
{
    match instr {
        Instr::MakeArray(count) => moved(before, count, 1),
        Instr::MakePairs(_, count) => moved(before, count, 1),
        Instr::Negate => moved(before, 1, 1),
        Instr::Not => moved(before, 1, 1),
        Instr::Binary(_) => moved(before, 2, 1),
        Instr::AndTest(_) => moved(before, 1, 1),
        Instr::OrTest(_) => moved(before, 1, 1),
        Instr::Member(_) => moved(before, 1, 1),
        Instr::Index => moved(before, 2, 1),
        Instr::CallMember(_, count) => after_call(count, before),
        Instr::Call(count) => after_call(count, before),
        Instr::Store(_) => moved(before, 1, 0),
        Instr::StoreMember(_) => moved(before, 2, 0),
        Instr::StoreIndex => moved(before, 3, 0),
        Instr::KeepMember(_) => moved(before, 1, 2),
        Instr::KeepIndex => moved(before, 2, 3),
        Instr::Drop => moved(before, 1, 0),
        Instr::Print(_, _, values) => moved(before, values, 0),
        Instr::Return => moved(before, 1, 0),
        Instr::ReturnInvalid => Ok(before),
        Instr::End => Ok(before),
        Instr::Branch(_) => moved(before, 1, 0),
        Instr::Jump(_) => Ok(before),
        Instr::While => Ok(before),
        Instr::Again(_) => Ok(before),
        Instr::For(_) => moved(before, 2, 2),
        Instr::ForStep(_) => moved(before, 3, 2),
        Instr::ForTest(_, _) => moved(before, 2, 2),
        Instr::ForNext(_, _) => moved(before, 2, 0),
        Instr::ForEach(_) => Ok(before),
        Instr::EachNext(_, _) => moved(before, 1, 0),
        Instr::Exit(_, _) => Ok(before),
        Instr::Bind(_) => moved(before, 1, 0),
        _ => moved(before, 0, 1),
    }
}
