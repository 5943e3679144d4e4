//! The walk over a tree: each function gives the first fault of its part. It recurses no deeper than the tree is, and reads each part once.
ghost use Rattle.std.specs.Prelude.{◌≡◌, [], true};
ghost use Rattle.brs_grammar.specs.declared.tree.Parameter.{out-Parameter};
ghost use Rattle.static_faults.specs.First.{first_by_place};
ghost use Rattle.static_faults.specs.Parts as part;
ghost use Rattle.static_faults.specs.Parts.{flat};

use crate::fault::{StaticFault, Surroundings};
use crate::names::{
    exit_fault, function_gives_value, parameter_fault, sub_gives_value, value_fault, variable_fault,
};
use crate::order::earlier;
use brs_grammar::tree::{
    BlockArm, Comparison, Conjunction, Expression, LineArm, Minus, Negation, Pair, Parameter,
    Postfix, Primary, PrintItem, Product, Rest, Shift, Simple, Statement, Sum, Target, Value,
};

// ---- expressions

#[cycle(walk)]
#[tactic(auto, using(crate::proofs::Walked::walked))]
fn expression(chain: &Expression) -> Option<StaticFault>
    ensures { result ≡ first_by_place (part.expression_faults chain.now) }
{
    let mut found = conjunction(&chain.first);
    for part in chain.more.as_slice() {
        found = earlier(found, conjunction(&part.operand));
    }
    found
}

#[cycle(walk)]
#[tactic(auto, using(crate::proofs::Walked::walked))]
fn conjunction(chain: &Conjunction) -> Option<StaticFault>
    ensures { result ≡ first_by_place (part.conjunction_faults chain.now) }
{
    let mut found = negation(&chain.first);
    for part in chain.more.as_slice() {
        found = earlier(found, negation(&part.operand));
    }
    found
}

#[cycle(walk)]
#[tactic(auto, using(crate::proofs::Walked::walked))]
fn negation(operand: &Negation) -> Option<StaticFault>
    ensures { result ≡ first_by_place (part.negation_faults operand.now) }
{
    match operand {
        Negation::Not(_, inner) => negation(inner.get()),
        Negation::Plain(inner) => comparison(inner),
    }
}

#[cycle(walk)]
#[tactic(auto, using(crate::proofs::Walked::walked))]
fn comparison(chain: &Comparison) -> Option<StaticFault>
    ensures { result ≡ first_by_place (part.comparison_faults chain.now) }
{
    let mut found = shift(&chain.first);
    for part in chain.more.as_slice() {
        found = earlier(found, shift(&part.operand));
    }
    found
}

#[cycle(walk)]
#[tactic(auto, using(crate::proofs::Walked::walked))]
fn shift(chain: &Shift) -> Option<StaticFault>
    ensures { result ≡ first_by_place (part.shift_faults chain.now) }
{
    let mut found = sum(&chain.first);
    for part in chain.more.as_slice() {
        found = earlier(found, sum(&part.operand));
    }
    found
}

#[cycle(walk)]
#[tactic(auto, using(crate::proofs::Walked::walked))]
fn sum(chain: &Sum) -> Option<StaticFault>
    ensures { result ≡ first_by_place (part.sum_faults chain.now) }
{
    let mut found = product(&chain.first);
    for part in chain.more.as_slice() {
        found = earlier(found, product(&part.operand));
    }
    found
}

#[cycle(walk)]
#[tactic(auto, using(crate::proofs::Walked::walked))]
fn product(chain: &Product) -> Option<StaticFault>
    ensures { result ≡ first_by_place (part.product_faults chain.now) }
{
    let mut found = minus(&chain.first);
    for part in chain.more.as_slice() {
        found = earlier(found, minus(&part.operand));
    }
    found
}

#[cycle(walk)]
#[tactic(auto, using(crate::proofs::Walked::walked))]
fn minus(operand: &Minus) -> Option<StaticFault>
    ensures { result ≡ first_by_place (part.minus_faults operand.now) }
{
    match operand {
        Minus::Negative(_, inner) => minus(inner.get()),
        Minus::Positive(inner) => value(inner),
    }
}

#[cycle(walk)]
#[tactic(auto, using(crate::proofs::Walked::walked))]
fn value(operand: &Value) -> Option<StaticFault>
    ensures { result ≡ first_by_place (part.value_faults operand.now) }
{
    earlier(primary(&operand.first), postfixes(operand.more.as_slice()))
}

#[cycle(walk)]
#[tactic(auto, using(crate::proofs::Walked::walked))]
fn postfix(behind: &Postfix) -> Option<StaticFault>
    ensures { result ≡ first_by_place (part.postfix_faults behind.now) }
{
    match behind {
        Postfix::Member(_, _) => None,
        Postfix::Index(_, index) => expression(index),
        Postfix::Arguments(_, arguments) => expressions(arguments.as_slice()),
    }
}

#[cycle(walk)]
#[tactic(auto, using(crate::proofs::Walked::walked))]
fn postfixes(items: &[Postfix]) -> Option<StaticFault>
    ensures { result ≡ first_by_place (flat part.postfix_faults items.now) }
{
    let mut found = None;
    for item in items {
        found = earlier(found, postfix(item));
    }
    found
}

#[cycle(walk)]
#[tactic(auto, using(crate::proofs::Walked::walked))]
fn expressions(items: &[Expression]) -> Option<StaticFault>
    ensures { result ≡ first_by_place (flat part.expression_faults items.now) }
{
    let mut found = None;
    for item in items {
        found = earlier(found, expression(item));
    }
    found
}

#[cycle(walk)]
#[tactic(auto, using(crate::proofs::Walked::walked))]
fn pair(entry: &Pair) -> Option<StaticFault>
    ensures { result ≡ first_by_place (part.pair_faults entry.now) }
{
    expression(&entry.value)
}

#[cycle(walk)]
#[tactic(auto, using(crate::proofs::Walked::walked))]
fn pairs(items: &[Pair]) -> Option<StaticFault>
    ensures { result ≡ first_by_place (flat part.pair_faults items.now) }
{
    let mut found = None;
    for item in items {
        found = earlier(found, pair(item));
    }
    found
}

#[cycle(walk)]
#[tactic(auto, using(crate::proofs::Walked::walked))]
fn primary(operand: &Primary) -> Option<StaticFault>
    ensures { result ≡ first_by_place (part.primary_faults operand.now) }
{
    match operand {
        Primary::Number(_, _) => None,
        Primary::Text(_, _) => None,
        Primary::True(_) => None,
        Primary::False(_) => None,
        Primary::Invalid(_) => None,
        Primary::Variable(_) => None,
        Primary::Bracketed(_, inner) => expression(inner.get()),
        Primary::Array(_, items) => expressions(items.as_slice()),
        Primary::Pairs(_, entries) => pairs(entries.as_slice()),
        Primary::AnonymousFunction(_, inner) => function(inner, function_gives_value(inner.value)),
        Primary::AnonymousSub(_, inner) => function(inner, sub_gives_value(inner.value)),
    }
}

// ---- functions

#[cycle(walk)]
#[tactic(auto, using(crate::proofs::Walked::walked))]
fn default(parameter: &Parameter) -> Option<StaticFault>
    ensures { result ≡ first_by_place (part.default_faults (out-Parameter parameter.now).default) }
{
    match &parameter.default {
        None => None,
        Some(value) => expression(value),
    }
}

#[cycle(walk)]
fn parameters(all: &[Parameter]) -> Option<StaticFault>
    ensures { result ≡ first_by_place (part.all_parameter_faults [] all.now) }
{
    let mut found = None;
    for (i, parameter) in all.iter().enumerate() {
        let own = parameter_fault(&all[..i], &parameter.name);
        found = earlier(found, earlier(own, default(parameter)));
    }
    found
}

/// What follows the name of a function, or the first word of one without a name. No loop stands round its body.
#[cycle(walk)]
#[tactic(auto, using(crate::proofs::Walked::walked))]
pub(crate) fn function(rest: &Rest, gives_value: bool) -> Option<StaticFault>
    ensures { result ≡ first_by_place (part.rest_faults gives_value rest.now) }
{
    earlier(
        parameters(rest.parameters.as_slice()),
        block(
            rest.body.as_slice(),
            Surroundings {
                in_for: false,
                in_while: false,
                gives_value,
            },
        ),
    )
}

// ---- statements

fn in_for(around: Surroundings) -> Surroundings
    ensures { result ≡ record around { in_for = true } }
{
    Surroundings {
        in_for: true,
        in_while: around.in_while,
        gives_value: around.gives_value,
    }
}

fn in_while(around: Surroundings) -> Surroundings
    ensures { result ≡ record around { in_while = true } }
{
    Surroundings {
        in_for: around.in_for,
        in_while: true,
        gives_value: around.gives_value,
    }
}

fn target(target: &Target) -> Option<StaticFault>
    ensures { result ≡ first_by_place (part.target_faults target.now) }
{
    if target.more.is_empty() {
        variable_fault(&target.name)
    } else {
        None
    }
}

#[cycle(walk)]
#[tactic(auto, using(crate::proofs::Walked::walked))]
fn print_item(item: &PrintItem) -> Option<StaticFault>
    ensures { result ≡ first_by_place (part.print_item_faults item.now) }
{
    match item {
        PrintItem::Semicolon => None,
        PrintItem::Comma => None,
        PrintItem::Value(value) => expression(value),
    }
}

#[cycle(walk)]
#[tactic(auto, using(crate::proofs::Walked::walked))]
fn print_items(items: &[PrintItem]) -> Option<StaticFault>
    ensures { result ≡ first_by_place (flat part.print_item_faults items.now) }
{
    let mut found = None;
    for item in items {
        found = earlier(found, print_item(item));
    }
    found
}

#[cycle(walk)]
#[tactic(auto, using(crate::proofs::Walked::walked))]
fn simple(statement: &Simple, around: Surroundings) -> Option<StaticFault>
    ensures { result ≡ first_by_place (part.simple_faults around statement.now) }
{
    match statement {
        Simple::Assign(set, _, value) => earlier(
            earlier(postfixes(set.more.as_slice()), expression(value)),
            target(set),
        ),
        Simple::Update(set, _, _, value) => earlier(
            postfixes(set.more.as_slice()),
            earlier(target(set), expression(value)),
        ),
        Simple::Count(set, _, _) => earlier(postfixes(set.more.as_slice()), target(set)),
        Simple::Call(called) => postfixes(called.more.as_slice()),
        Simple::Print(_, items) => print_items(items.as_slice()),
        Simple::Return(place, returned) => match returned {
            None => None,
            Some(value) => earlier(expression(value), value_fault(around, *place)),
        },
        Simple::Exit(place, kind) => exit_fault(around, *kind, *place),
    }
}

#[cycle(walk)]
#[tactic(auto, using(crate::proofs::Walked::walked))]
fn run(items: &[Simple], around: Surroundings) -> Option<StaticFault>
    ensures { result ≡ first_by_place (flat (part.simple_faults around) items.now) }
{
    let mut found = None;
    for item in items {
        found = earlier(found, simple(item, around));
    }
    found
}

#[cycle(walk)]
#[tactic(auto, using(crate::proofs::Walked::walked))]
fn block_arm(arm: &BlockArm, around: Surroundings) -> Option<StaticFault>
    ensures { result ≡ first_by_place (part.block_arm_faults around arm.now) }
{
    earlier(
        expression(&arm.condition),
        block(arm.block.as_slice(), around),
    )
}

#[cycle(walk)]
#[tactic(auto, using(crate::proofs::Walked::walked))]
fn block_arms(items: &[BlockArm], around: Surroundings) -> Option<StaticFault>
    ensures { result ≡ first_by_place (flat (part.block_arm_faults around) items.now) }
{
    let mut found = None;
    for item in items {
        found = earlier(found, block_arm(item, around));
    }
    found
}

#[cycle(walk)]
#[tactic(auto, using(crate::proofs::Walked::walked))]
fn line_arm(arm: &LineArm, around: Surroundings) -> Option<StaticFault>
    ensures { result ≡ first_by_place (part.line_arm_faults around arm.now) }
{
    earlier(expression(&arm.condition), run(arm.run.as_slice(), around))
}

#[cycle(walk)]
#[tactic(auto, using(crate::proofs::Walked::walked))]
fn line_arms(items: &[LineArm], around: Surroundings) -> Option<StaticFault>
    ensures { result ≡ first_by_place (flat (part.line_arm_faults around) items.now) }
{
    let mut found = None;
    for item in items {
        found = earlier(found, line_arm(item, around));
    }
    found
}

#[cycle(walk)]
#[tactic(auto, using(crate::proofs::Walked::walked))]
fn statement(statement: &Statement, around: Surroundings) -> Option<StaticFault>
    ensures { result ≡ first_by_place (part.statement_faults around statement.now) }
{
    match statement {
        Statement::Simple(inner) => simple(inner, around),
        Statement::BlockIf(first, more, other) => match other {
            None => earlier(
                block_arm(first, around),
                block_arms(more.as_slice(), around),
            ),
            Some(other) => earlier(
                block_arm(first, around),
                earlier(
                    block_arms(more.as_slice(), around),
                    block(other.as_slice(), around),
                ),
            ),
        },
        Statement::For(_, variable, start, end, step, inner) => match step {
            None => earlier(
                earlier(expression(start.get()), expression(end.get())),
                earlier(
                    variable_fault(variable),
                    block(inner.as_slice(), in_for(around)),
                ),
            ),
            Some(step) => earlier(
                earlier(
                    expression(start.get()),
                    earlier(expression(end.get()), expression(step.get())),
                ),
                earlier(
                    variable_fault(variable),
                    block(inner.as_slice(), in_for(around)),
                ),
            ),
        },
        Statement::ForEach(_, variable, items, inner) => earlier(
            expression(items),
            earlier(
                variable_fault(variable),
                block(inner.as_slice(), in_for(around)),
            ),
        ),
        Statement::While(_, condition, inner) => earlier(
            expression(condition),
            block(inner.as_slice(), in_while(around)),
        ),
        Statement::LineIf(first, more, other) => match other {
            None => earlier(line_arm(first, around), line_arms(more.as_slice(), around)),
            Some(other) => earlier(
                line_arm(first, around),
                earlier(
                    line_arms(more.as_slice(), around),
                    run(other.as_slice(), around),
                ),
            ),
        },
    }
}

#[cycle(walk)]
#[tactic(auto, using(crate::proofs::Walked::walked))]
fn block(items: &[Statement], around: Surroundings) -> Option<StaticFault>
    ensures { result ≡ first_by_place (flat (part.statement_faults around) items.now) }
{
    let mut found = None;
    for item in items {
        found = earlier(found, statement(item, around));
    }
    found
}
