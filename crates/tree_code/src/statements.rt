//! The code of statements. Each function puts the code of its part in front, and is told where an `exit` from it leads.
ghost use Rattle.std.specs.Prelude.{◌≡◌, ◌++◌, OnOk, IfOk};
ghost use Rattle.brs_grammar.specs.View.{postfix_of};
ghost use Rattle.code_drafts.specs.DraftCode.{flat};
ghost use Rattle.code_drafts.specs.StatementCode as statements;
ghost use Rattle.tree_code.specs.FileCode as file;

use crate::expressions::{expression, expressions, postfixes};
use crate::targets::{put_keep, put_set, put_update};
use brs_code::Instr;
use brs_grammar::tree::{BlockArm, LineArm, Name, Postfix, PrintItem, Simple, Statement};
use chan_values::NoMemory;
use code_drafts::{
    Buffer, Draft, arm_blocks, count_operator, count_values, each_loop, exit_instr, farther,
    for_loop, inside_for, inside_while, marks, name_draft, number_instr, sum, update_operator,
    while_loop,
};
use code_relation::Exits;
use std::alloc::Global;

// ---- statements in one line

/// What the last part behind a target's name adds to the operands.
#[cycle(walk)]
#[tactic(auto, using(code_drafts::proofs::Targets::lasts))]
fn last_operands(alloc: Global, code: &mut Buffer, part: &Postfix) -> Result<(), NoMemory>
    ensures { OnOk result (code.new ≡ statements.last_code (postfix_of part.now) ++ code.old) }
{
    match part {
        Postfix::Member(_, _) => Ok(()),
        Postfix::Index(_, index) => expression(alloc, code, index),
        Postfix::Arguments(_, arguments) => expressions(alloc, code, arguments.as_slice()),
    }
}

/// The operands of a target: none for a variable, the value of a member, and the value and the index of an index.
#[cycle(walk)]
#[tactic(auto, using(code_drafts::proofs::Targets::no_operands, code_drafts::proofs::Targets::some_operands))]
fn operands(alloc: Global, code: &mut Buffer, name: &Name, more: &[Postfix]) -> Result<(), NoMemory>
    ensures { OnOk result (code.new ≡ statements.operands_of name.now more.now ++ code.old) }
{
    if more.len() == 0 {
        return Ok(());
    }
    let at = more.len() - 1;
    last_operands(alloc, code, &more[at])?;
    postfixes(alloc, code, more, at)?;
    code.push(name_draft(alloc, name, name.place.line)?)
}

#[cycle(walk)]
#[tactic(auto, using(crate::proofs::Steps::print_items))]
fn print_item(alloc: Global, code: &mut Buffer, item: &PrintItem) -> Result<(), NoMemory>
    ensures { OnOk result (code.new ≡ statements.print_item_code item.now ++ code.old) }
{
    match item {
        PrintItem::Semicolon => Ok(()),
        PrintItem::Comma => Ok(()),
        PrintItem::Value(value) => expression(alloc, code, value),
    }
}

#[cycle(walk)]
fn print_items(alloc: Global, code: &mut Buffer, items: &[PrintItem]) -> Result<(), NoMemory>
    ensures { OnOk result (code.new ≡ flat statements.print_item_code items.now ++ code.old) }
{
    for i in 0..items.len() {
        print_item(alloc, code, &items[items.len() - 1 - i])?;
    }
    Ok(())
}

#[cycle(walk)]
#[tactic(auto, using(crate::proofs::Steps::simple_rules))]
fn simple(
    alloc: Global,
    code: &mut Buffer,
    statement: &Simple,
    exits: Exits,
) -> Result<(), NoMemory>
    ensures { OnOk result (code.new ≡ file.simple_code exits statement.now ++ code.old) }
{
    match statement {
        Simple::Assign(target, _, value) => {
            put_set(alloc, code, target)?;
            expression(alloc, code, value)?;
            operands(alloc, code, &target.name, target.more.as_slice())
        }
        Simple::Update(target, place, sign, value) => {
            put_update(alloc, code, target, place.line, update_operator(*sign))?;
            expression(alloc, code, value)?;
            put_keep(alloc, code, target)?;
            operands(alloc, code, &target.name, target.more.as_slice())
        }
        Simple::Count(target, place, sign) => {
            put_update(alloc, code, target, place.line, count_operator(*sign))?;
            code.push(Draft::Plain(number_instr(b"1"), place.line))?;
            put_keep(alloc, code, target)?;
            operands(alloc, code, &target.name, target.more.as_slice())
        }
        Simple::Call(target) => {
            code.push(Draft::Plain(Instr::Drop, target.name.place.line))?;
            postfixes(alloc, code, target.more.as_slice(), target.more.len())?;
            code.push(name_draft(alloc, &target.name, target.name.place.line)?)
        }
        Simple::Print(place, items) => {
            let values = count_values(items.as_slice());
            let print = Instr::Print(0, items.len(), values);
            code.push(Draft::Marks(print, place.line, marks(alloc, items.as_slice())?))?;
            print_items(alloc, code, items.as_slice())
        }
        Simple::Return(place, returned) => match returned {
            None => code.push(Draft::Plain(Instr::ReturnInvalid, place.line)),
            Some(value) => {
                code.push(Draft::Plain(Instr::Return, place.line))?;
                expression(alloc, code, value)
            }
        },
        Simple::Exit(place, kind) => {
            code.push(Draft::Plain(exit_instr(exits, *kind), place.line))
        }
    }
}

/// The statements of one line, by themselves.
#[cycle(walk)]
fn run(alloc: Global, items: &[Simple], exits: Exits) -> Result<Buffer, NoMemory>
    ensures { IfOk result (λ code. code ≡ file.run_code exits items.now) }
{
    let mut code = Buffer::new(alloc);
    for i in 0..items.len() {
        let there = farther(code.len(), exits)?;
        simple(alloc, &mut code, &items[items.len() - 1 - i], there)?;
    }
    Ok(code)
}

// ---- arms

/// An arm in front of what follows where it isn't taken.
#[cycle(walk)]
#[tactic(auto, using(crate::proofs::Steps::arm_rules))]
fn block_arm(
    alloc: Global,
    chain: &mut Buffer,
    arm: &BlockArm,
    exits: Exits,
) -> Result<(), NoMemory>
    ensures { OnOk result (chain.new ≡ file.block_arm_code exits arm.now chain.old) }
{
    let there = farther(sum(chain.len(), 1)?, exits)?;
    let inner = block(alloc, arm.block.as_slice(), there)?;
    arm_blocks(chain, arm.place.line, inner)?;
    expression(alloc, chain, &arm.condition)
}

/// Arms in front of what follows where none is taken.
#[cycle(walk)]
fn block_arms(
    alloc: Global,
    chain: &mut Buffer,
    arms: &[BlockArm],
    exits: Exits,
) -> Result<(), NoMemory>
    ensures { OnOk result (chain.new ≡ file.block_arms_code exits arms.now chain.old) }
{
    for i in 0..arms.len() {
        block_arm(alloc, chain, &arms[arms.len() - 1 - i], exits)?;
    }
    Ok(())
}

/// As `block_arm`, of an `if` in one line.
#[cycle(walk)]
#[tactic(auto, using(crate::proofs::Steps::arm_rules))]
fn line_arm(alloc: Global, chain: &mut Buffer, arm: &LineArm, exits: Exits) -> Result<(), NoMemory>
    ensures { OnOk result (chain.new ≡ file.line_arm_code exits arm.now chain.old) }
{
    let there = farther(sum(chain.len(), 1)?, exits)?;
    let inner = run(alloc, arm.run.as_slice(), there)?;
    arm_blocks(chain, arm.place.line, inner)?;
    expression(alloc, chain, &arm.condition)
}

/// As `block_arms`, of an `if` in one line.
#[cycle(walk)]
fn line_arms(
    alloc: Global,
    chain: &mut Buffer,
    arms: &[LineArm],
    exits: Exits,
) -> Result<(), NoMemory>
    ensures { OnOk result (chain.new ≡ file.line_arms_code exits arms.now chain.old) }
{
    for i in 0..arms.len() {
        line_arm(alloc, chain, &arms[arms.len() - 1 - i], exits)?;
    }
    Ok(())
}

// ---- blocks

#[cycle(walk)]
#[tactic(auto, using(crate::proofs::Steps::statement_rules))]
fn statement(
    alloc: Global,
    code: &mut Buffer,
    statement: &Statement,
    exits: Exits,
) -> Result<(), NoMemory>
    ensures { OnOk result (code.new ≡ file.statement_code exits statement.now ++ code.old) }
{
    match statement {
        Statement::Simple(inner) => simple(alloc, code, inner, exits),
        Statement::BlockIf(first, more, other) => match other {
            None => {
                let mut chain = Buffer::new(alloc);
                block_arms(alloc, &mut chain, more.as_slice(), exits)?;
                block_arm(alloc, &mut chain, first, exits)?;
                code.append(chain)
            }
            Some(other) => {
                let mut chain = block(alloc, other.as_slice(), exits)?;
                block_arms(alloc, &mut chain, more.as_slice(), exits)?;
                block_arm(alloc, &mut chain, first, exits)?;
                code.append(chain)
            }
        },
        Statement::For(place, variable, start, end, step, inner) => {
            let body = block(alloc, inner.as_slice(), inside_for(2, exits)?)?;
            match step {
                None => {
                    for_loop(alloc, code, place.line, false, variable, body)?;
                    expression(alloc, code, end.get())?;
                    expression(alloc, code, start.get())
                }
                Some(step) => {
                    for_loop(alloc, code, place.line, true, variable, body)?;
                    expression(alloc, code, step.get())?;
                    expression(alloc, code, end.get())?;
                    expression(alloc, code, start.get())
                }
            }
        }
        Statement::ForEach(place, variable, items, inner) => {
            let body = block(alloc, inner.as_slice(), inside_for(1, exits)?)?;
            each_loop(alloc, code, place.line, variable, body)?;
            expression(alloc, code, items)
        }
        Statement::While(place, condition, inner) => {
            let body = block(alloc, inner.as_slice(), inside_while(exits)?)?;
            let mut test = Buffer::new(alloc);
            expression(alloc, &mut test, condition)?;
            while_loop(code, place.line, test, body)
        }
        Statement::LineIf(first, more, other) => match other {
            None => {
                let mut chain = Buffer::new(alloc);
                line_arms(alloc, &mut chain, more.as_slice(), exits)?;
                line_arm(alloc, &mut chain, first, exits)?;
                code.append(chain)
            }
            Some(other) => {
                let mut chain = run(alloc, other.as_slice(), exits)?;
                line_arms(alloc, &mut chain, more.as_slice(), exits)?;
                line_arm(alloc, &mut chain, first, exits)?;
                code.append(chain)
            }
        },
    }
}

/// The statements of a block, by themselves.
#[cycle(walk)]
pub(crate) fn block(alloc: Global, items: &[Statement], exits: Exits) -> Result<Buffer, NoMemory>
    ensures { IfOk result (λ code. code ≡ file.block_code exits items.now) }
{
    let mut code = Buffer::new(alloc);
    for i in 0..items.len() {
        let there = farther(code.len(), exits)?;
        statement(alloc, &mut code, &items[items.len() - 1 - i], there)?;
    }
    Ok(code)
}
