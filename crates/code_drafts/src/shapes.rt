//! The parts of a form put together, each as code of its own.
ghost use Rattle.std.specs.Prelude.{◌≡◌, ◌∷◌, [], ◌++◌, cond, OnOk};
ghost use Rattle.chan_values.specs.Folded.{folded};
ghost use Rattle.code_drafts.specs.declared.draft.Draft.TheVariants as draft;
ghost use Rattle.brs_code.specs.declared.instr.Instr.TheVariants as i;
ghost use Rattle.brs_code.specs.declared.instr.Operator.TheVariants as op;
ghost use Rattle.code_drafts.specs.DraftCode as drafts;

use crate::buffer::Buffer;
use crate::draft::Draft;
use crate::words::{slot_draft, sum};
use brs_code::{Instr, Operator};
use brs_grammar::tree::Name;
use chan_values::NoMemory;
use std::alloc::Global;

/// An operand of `or`, with its test and its operator.
pub fn or_operand(code: &mut Buffer, line: u32, right: Buffer) -> Result<(), NoMemory>
    ensures { OnOk result (code.new ≡ drafts.tested i.OrTest line right ++ draft.Plain (i.Binary op.Or) line ∷ code.old) }
{
    let passes = sum(right.len(), 1)?;
    code.push(Draft::Plain(Instr::Binary(Operator::Or), line))?;
    code.append(right)?;
    code.push(Draft::Plain(Instr::OrTest(passes), line))
}

/// An operand of `and`, with its test and its operator.
pub fn and_operand(code: &mut Buffer, line: u32, right: Buffer) -> Result<(), NoMemory>
    ensures { OnOk result (code.new ≡ drafts.tested i.AndTest line right ++ draft.Plain (i.Binary op.And) line ∷ code.old) }
{
    let passes = sum(right.len(), 1)?;
    code.push(Draft::Plain(Instr::Binary(Operator::And), line))?;
    code.append(right)?;
    code.push(Draft::Plain(Instr::AndTest(passes), line))
}

/// The blocks of an `if` in front of what follows where it isn't taken.
pub fn arm_blocks(chain: &mut Buffer, line: u32, block: Buffer) -> Result<(), NoMemory>
    ensures { OnOk result (chain.new ≡ drafts.if_code line block chain.old) }
{
    let passes = sum(block.len(), 1)?;
    let behind = chain.len();
    chain.push(Draft::Plain(Instr::Jump(behind), 0))?;
    chain.append(block)?;
    chain.push(Draft::Plain(Instr::Branch(passes), line))
}

/// A `while` loop.
pub fn while_loop(code: &mut Buffer, line: u32, test: Buffer, body: Buffer) -> Result<(), NoMemory>
    ensures { OnOk result (code.new ≡ drafts.while_code line test body ++ code.old) }
{
    let passes = sum(body.len(), 1)?;
    let back = sum(sum(test.len(), 1)?, body.len())?;
    code.push(Draft::Plain(Instr::Again(back), line))?;
    code.append(body)?;
    code.push(Draft::Plain(Instr::Branch(passes), line))?;
    code.append(test)?;
    code.push(Draft::Plain(Instr::While, line))
}

/// A `for` loop behind its operands, which are three with a step.
pub fn for_loop(
    alloc: Global,
    code: &mut Buffer,
    line: u32,
    has_step: bool,
    name: &Name,
    body: Buffer,
) -> Result<(), NoMemory>
    ensures { OnOk result (code.new ≡ drafts.for_code line (cond has_step 3 2) (folded name.now.text) body ++ code.old) }
{
    let passes = sum(body.len(), 1)?;
    code.push(slot_draft(alloc, Instr::ForNext(0, passes), line, name)?)?;
    code.append(body)?;
    code.push(slot_draft(alloc, Instr::ForTest(0, passes), line, name)?)?;
    if has_step {
        code.push(slot_draft(alloc, Instr::ForStep(0), line, name)?)
    } else {
        code.push(slot_draft(alloc, Instr::For(0), line, name)?)
    }
}

/// A `for each` loop behind its operand.
pub fn each_loop(
    alloc: Global,
    code: &mut Buffer,
    line: u32,
    name: &Name,
    body: Buffer,
) -> Result<(), NoMemory>
    ensures { OnOk result (code.new ≡ drafts.each_code line (folded name.now.text) body ++ code.old) }
{
    let passes = body.len();
    code.push(slot_draft(alloc, Instr::EachNext(0, passes), line, name)?)?;
    code.append(body)?;
    code.push(Draft::Plain(Instr::ForEach(passes), line))
}
