//! The code of expressions. Each function puts the code of its part in front.
ghost use Rattle.std.specs.Prelude.{◌≡◌, ◌≤◌, ◌++◌, length, map, take, None, OnOk};
ghost use Rattle.brs_grammar.specs.View.{postfix_of};
ghost use Rattle.code_drafts.specs.DraftCode.{flat, tail_code, tails_code};
ghost use Rattle.code_drafts.specs.TreeCode as tree;

use crate::functions::function;
use brs_code::Instr;
use brs_forms::text_of;
use brs_grammar::tree::{
    AndPart, Comparison, ComparisonPart, Conjunction, Expression, Minus, Negation, OrPart, Pair,
    Postfix, Primary, Product, ProductPart, Shift, ShiftPart, Sum, SumPart, Value,
};
use chan_values::{NoMemory, Text};
use code_drafts::{
    Buffer, Draft, and_operand, call_draft, comparison_operator, is_called, keys, name_before,
    name_draft, number_instr, or_operand, product_operator, shift_operator, sum_operator,
    word_draft,
};
use std::alloc::Global;

// ---- chains of operators

#[cycle(walk)]
#[tactic(auto, using(crate::proofs::Chains::chains))]
pub(crate) fn expression(
    alloc: Global,
    code: &mut Buffer,
    chain: &Expression,
) -> Result<(), NoMemory>
    ensures { OnOk result (code.new ≡ tree.expression_code chain.now ++ code.old) }
{
    or_parts(alloc, code, chain.more.as_slice())?;
    conjunction(alloc, code, &chain.first)
}

#[cycle(walk)]
fn or_parts(alloc: Global, code: &mut Buffer, parts: &[OrPart]) -> Result<(), NoMemory>
    ensures { OnOk result (code.new ≡ flat tree.or_part_code parts.now ++ code.old) }
{
    for i in 0..parts.len() {
        or_part(alloc, code, &parts[parts.len() - 1 - i])?;
    }
    Ok(())
}

#[cycle(walk)]
#[tactic(auto, using(crate::proofs::Chains::chains))]
fn or_part(alloc: Global, code: &mut Buffer, part: &OrPart) -> Result<(), NoMemory>
    ensures { OnOk result (code.new ≡ tree.or_part_code part.now ++ code.old) }
{
    let mut right = Buffer::new(alloc);
    conjunction(alloc, &mut right, &part.operand)?;
    or_operand(code, part.place.line, right)
}

#[cycle(walk)]
#[tactic(auto, using(crate::proofs::Chains::chains))]
fn conjunction(alloc: Global, code: &mut Buffer, chain: &Conjunction) -> Result<(), NoMemory>
    ensures { OnOk result (code.new ≡ tree.conjunction_code chain.now ++ code.old) }
{
    and_parts(alloc, code, chain.more.as_slice())?;
    negation(alloc, code, &chain.first)
}

#[cycle(walk)]
fn and_parts(alloc: Global, code: &mut Buffer, parts: &[AndPart]) -> Result<(), NoMemory>
    ensures { OnOk result (code.new ≡ flat tree.and_part_code parts.now ++ code.old) }
{
    for i in 0..parts.len() {
        and_part(alloc, code, &parts[parts.len() - 1 - i])?;
    }
    Ok(())
}

#[cycle(walk)]
#[tactic(auto, using(crate::proofs::Chains::chains))]
fn and_part(alloc: Global, code: &mut Buffer, part: &AndPart) -> Result<(), NoMemory>
    ensures { OnOk result (code.new ≡ tree.and_part_code part.now ++ code.old) }
{
    let mut right = Buffer::new(alloc);
    negation(alloc, &mut right, &part.operand)?;
    and_operand(code, part.place.line, right)
}

#[cycle(walk)]
#[tactic(auto, using(crate::proofs::Chains::chains))]
fn negation(alloc: Global, code: &mut Buffer, operand: &Negation) -> Result<(), NoMemory>
    ensures { OnOk result (code.new ≡ tree.negation_code operand.now ++ code.old) }
{
    match operand {
        Negation::Not(place, inner) => {
            code.push(Draft::Plain(Instr::Not, place.line))?;
            negation(alloc, code, inner.get())
        }
        Negation::Plain(inner) => comparison(alloc, code, inner),
    }
}

#[cycle(walk)]
#[tactic(auto, using(crate::proofs::Chains::chains))]
fn comparison(alloc: Global, code: &mut Buffer, chain: &Comparison) -> Result<(), NoMemory>
    ensures { OnOk result (code.new ≡ tree.comparison_code chain.now ++ code.old) }
{
    comparison_parts(alloc, code, chain.more.as_slice())?;
    shift(alloc, code, &chain.first)
}

#[cycle(walk)]
fn comparison_parts(
    alloc: Global,
    code: &mut Buffer,
    parts: &[ComparisonPart],
) -> Result<(), NoMemory>
    ensures { OnOk result (code.new ≡ flat tree.comparison_part_code parts.now ++ code.old) }
{
    for i in 0..parts.len() {
        comparison_part(alloc, code, &parts[parts.len() - 1 - i])?;
    }
    Ok(())
}

#[cycle(walk)]
#[tactic(auto, using(crate::proofs::Chains::chains))]
fn comparison_part(alloc: Global, code: &mut Buffer, part: &ComparisonPart) -> Result<(), NoMemory>
    ensures { OnOk result (code.new ≡ tree.comparison_part_code part.now ++ code.old) }
{
    let operator = comparison_operator(part.sign);
    code.push(Draft::Plain(Instr::Binary(operator), part.place.line))?;
    shift(alloc, code, &part.operand)
}

#[cycle(walk)]
#[tactic(auto, using(crate::proofs::Chains::chains))]
fn shift(alloc: Global, code: &mut Buffer, chain: &Shift) -> Result<(), NoMemory>
    ensures { OnOk result (code.new ≡ tree.shift_code chain.now ++ code.old) }
{
    shift_parts(alloc, code, chain.more.as_slice())?;
    sum(alloc, code, &chain.first)
}

#[cycle(walk)]
fn shift_parts(alloc: Global, code: &mut Buffer, parts: &[ShiftPart]) -> Result<(), NoMemory>
    ensures { OnOk result (code.new ≡ flat tree.shift_part_code parts.now ++ code.old) }
{
    for i in 0..parts.len() {
        shift_part(alloc, code, &parts[parts.len() - 1 - i])?;
    }
    Ok(())
}

#[cycle(walk)]
#[tactic(auto, using(crate::proofs::Chains::chains))]
fn shift_part(alloc: Global, code: &mut Buffer, part: &ShiftPart) -> Result<(), NoMemory>
    ensures { OnOk result (code.new ≡ tree.shift_part_code part.now ++ code.old) }
{
    let operator = shift_operator(part.sign);
    code.push(Draft::Plain(Instr::Binary(operator), part.place.line))?;
    sum(alloc, code, &part.operand)
}

#[cycle(walk)]
#[tactic(auto, using(crate::proofs::Chains::chains))]
fn sum(alloc: Global, code: &mut Buffer, chain: &Sum) -> Result<(), NoMemory>
    ensures { OnOk result (code.new ≡ tree.sum_code chain.now ++ code.old) }
{
    sum_parts(alloc, code, chain.more.as_slice())?;
    product(alloc, code, &chain.first)
}

#[cycle(walk)]
fn sum_parts(alloc: Global, code: &mut Buffer, parts: &[SumPart]) -> Result<(), NoMemory>
    ensures { OnOk result (code.new ≡ flat tree.sum_part_code parts.now ++ code.old) }
{
    for i in 0..parts.len() {
        sum_part(alloc, code, &parts[parts.len() - 1 - i])?;
    }
    Ok(())
}

#[cycle(walk)]
#[tactic(auto, using(crate::proofs::Chains::chains))]
fn sum_part(alloc: Global, code: &mut Buffer, part: &SumPart) -> Result<(), NoMemory>
    ensures { OnOk result (code.new ≡ tree.sum_part_code part.now ++ code.old) }
{
    let operator = sum_operator(part.sign);
    code.push(Draft::Plain(Instr::Binary(operator), part.place.line))?;
    product(alloc, code, &part.operand)
}

#[cycle(walk)]
#[tactic(auto, using(crate::proofs::Chains::chains))]
fn product(alloc: Global, code: &mut Buffer, chain: &Product) -> Result<(), NoMemory>
    ensures { OnOk result (code.new ≡ tree.product_code chain.now ++ code.old) }
{
    product_parts(alloc, code, chain.more.as_slice())?;
    minus(alloc, code, &chain.first)
}

#[cycle(walk)]
fn product_parts(alloc: Global, code: &mut Buffer, parts: &[ProductPart]) -> Result<(), NoMemory>
    ensures { OnOk result (code.new ≡ flat tree.product_part_code parts.now ++ code.old) }
{
    for i in 0..parts.len() {
        product_part(alloc, code, &parts[parts.len() - 1 - i])?;
    }
    Ok(())
}

#[cycle(walk)]
#[tactic(auto, using(crate::proofs::Chains::chains))]
fn product_part(alloc: Global, code: &mut Buffer, part: &ProductPart) -> Result<(), NoMemory>
    ensures { OnOk result (code.new ≡ tree.product_part_code part.now ++ code.old) }
{
    let operator = product_operator(part.sign);
    code.push(Draft::Plain(Instr::Binary(operator), part.place.line))?;
    minus(alloc, code, &part.operand)
}

#[cycle(walk)]
#[tactic(auto, using(crate::proofs::Chains::chains))]
fn minus(alloc: Global, code: &mut Buffer, operand: &Minus) -> Result<(), NoMemory>
    ensures { OnOk result (code.new ≡ tree.minus_code operand.now ++ code.old) }
{
    match operand {
        Minus::Negative(place, inner) => {
            code.push(Draft::Plain(Instr::Negate, place.line))?;
            minus(alloc, code, inner.get())
        }
        Minus::Positive(inner) => value(alloc, code, inner),
    }
}

// ---- values with what stands behind them

#[cycle(walk)]
#[tactic(auto, using(code_drafts::proofs::Values::values))]
fn value(alloc: Global, code: &mut Buffer, operand: &Value) -> Result<(), NoMemory>
    ensures { OnOk result (code.new ≡ tree.value_code operand.now ++ code.old) }
{
    postfixes(alloc, code, operand.more.as_slice(), operand.more.len())?;
    primary(alloc, code, &operand.first)
}

/// What stands behind a value: so many of its parts. A member that arguments follow directly is called.
#[cycle(walk)]
pub(crate) fn postfixes(
    alloc: Global,
    code: &mut Buffer,
    parts: &[Postfix],
    count: usize,
) -> Result<(), NoMemory>
    requires { count ≤ length parts.now }
    ensures { OnOk result (code.new ≡ tails_code None (take count (map postfix_of parts.now)) ++ code.old) }
{
    for i in 0..count {
        let at = count - 1 - i;
        let before = name_before(alloc, parts, at)?;
        let called = is_called(parts, at, count);
        postfix(alloc, code, &parts[at], before, called)?;
    }
    Ok(())
}

/// A part behind a value, with the name of the member before it, and whether arguments follow.
#[cycle(walk)]
#[tactic(auto, using(code_drafts::proofs::Values::values))]
fn postfix(
    alloc: Global,
    code: &mut Buffer,
    part: &Postfix,
    before: Option<Text>,
    called: bool,
) -> Result<(), NoMemory>
    ensures { OnOk result (code.new ≡ tail_code before (postfix_of part.now) called ++ code.old) }
{
    match part {
        Postfix::Member(place, name) => {
            if called {
                Ok(())
            } else {
                code.push(word_draft(alloc, Instr::Member(0), place.line, name)?)
            }
        }
        Postfix::Index(place, index) => {
            code.push(Draft::Plain(Instr::Index, place.line))?;
            expression(alloc, code, index)
        }
        Postfix::Arguments(place, arguments) => {
            code.push(call_draft(before, place.line, arguments.len()))?;
            expressions(alloc, code, arguments.as_slice())
        }
    }
}

#[cycle(walk)]
pub(crate) fn expressions(
    alloc: Global,
    code: &mut Buffer,
    items: &[Expression],
) -> Result<(), NoMemory>
    ensures { OnOk result (code.new ≡ flat tree.expression_code items.now ++ code.old) }
{
    for i in 0..items.len() {
        expression(alloc, code, &items[items.len() - 1 - i])?;
    }
    Ok(())
}

#[cycle(walk)]
#[tactic(auto, using(code_drafts::proofs::Values::pair_is))]
fn pair(alloc: Global, code: &mut Buffer, entry: &Pair) -> Result<(), NoMemory>
    ensures { OnOk result (code.new ≡ tree.pair_code entry.now ++ code.old) }
{
    expression(alloc, code, &entry.value)
}

#[cycle(walk)]
fn pairs(alloc: Global, code: &mut Buffer, items: &[Pair]) -> Result<(), NoMemory>
    ensures { OnOk result (code.new ≡ flat tree.pair_code items.now ++ code.old) }
{
    for i in 0..items.len() {
        pair(alloc, code, &items[items.len() - 1 - i])?;
    }
    Ok(())
}

#[cycle(walk)]
#[tactic(auto, using(code_drafts::proofs::Values::values))]
fn primary(alloc: Global, code: &mut Buffer, operand: &Primary) -> Result<(), NoMemory>
    ensures { OnOk result (code.new ≡ tree.primary_code operand.now ++ code.old) }
{
    match operand {
        Primary::Number(place, digits) => {
            code.push(Draft::Plain(number_instr(digits.as_slice()), place.line))
        }
        Primary::Text(place, quoted) => {
            let text = text_of(alloc, quoted.as_slice())?;
            code.push(Draft::Word(Instr::Text(0), place.line, text))
        }
        Primary::True(place) => code.push(Draft::Plain(Instr::Truth(true), place.line)),
        Primary::False(place) => code.push(Draft::Plain(Instr::Truth(false), place.line)),
        Primary::Invalid(place) => code.push(Draft::Plain(Instr::Invalid, place.line)),
        Primary::Variable(name) => code.push(name_draft(alloc, name, name.place.line)?),
        Primary::Bracketed(_, inner) => expression(alloc, code, inner.get()),
        Primary::Array(place, items) => {
            code.push(Draft::Plain(Instr::MakeArray(items.len()), place.line))?;
            expressions(alloc, code, items.as_slice())
        }
        Primary::Pairs(place, entries) => {
            let words = keys(alloc, entries.as_slice())?;
            let make = Instr::MakePairs(0, entries.len());
            code.push(Draft::Words(make, place.line, words))?;
            pairs(alloc, code, entries.as_slice())
        }
        Primary::AnonymousFunction(place, rest) => code.push(function(alloc, place.line, rest)?),
        Primary::AnonymousSub(place, rest) => code.push(function(alloc, place.line, rest)?),
    }
}
