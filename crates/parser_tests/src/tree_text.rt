//! The printed form of a syntax tree, for the tests.
//!
//! A form stands in round brackets with its word and its parts, a block in braces, and `@` before the line and column of a place. A chain of
//! operators with one operand is printed as that operand, and a value with nothing behind it as its primary expression. Nothing else is left out.
use brs_grammar::tree::{
    BlockArm, Comparison, ComparisonSign, Conjunction, CountSign, Expression, FileTree, Key,
    LineArm, LoopKind, Minus, Name, NamedFunction, Negation, Parameter, Postfix, Primary,
    PrintItem, Product, ProductSign, Rest, Shift, ShiftSign, Simple, Statement, Sum, SumSign,
    Target, TypeWord, UpdateSign, Value,
};
use brs_tokens::Place;
use sqlite_items::Items;
use std::alloc::{AllocError, Global};

fn place(out: &mut String, at: Place) -> Result<(), AllocError> {
    write!(out, "@{}:{}", at.line, at.column)
}

/// A word with its place.
fn word(out: &mut String, word: &str, at: Place) -> Result<(), AllocError> {
    out.push_str(word)?;
    place(out, at)
}

fn spelling(out: &mut String, text: &Items<u8>, at: Place) -> Result<(), AllocError> {
    match str::from_utf8(text.as_slice()) {
        Ok(text) => out.push_str(text)?,
        Err(_) => out.push_str("not text")?,
    }
    place(out, at)
}

fn name(out: &mut String, name: &Name) -> Result<(), AllocError> {
    spelling(out, &name.text, name.place)
}

fn type_word(out: &mut String, kind: Option<TypeWord>) -> Result<(), AllocError> {
    let Some(kind) = kind else {
        return Ok(());
    };
    out.push_str(match kind {
        TypeWord::Integer => " as integer",
        TypeWord::LongInteger => " as longinteger",
        TypeWord::String => " as string",
        TypeWord::Boolean => " as boolean",
        TypeWord::Object => " as object",
        TypeWord::Dynamic => " as dynamic",
        TypeWord::Function => " as function",
        TypeWord::Interface => " as interface",
        TypeWord::Void => " as void",
    })
}

fn comparison_sign(sign: ComparisonSign) -> &'static str {
    match sign {
        ComparisonSign::Equal => "=",
        ComparisonSign::NotEqual => "<>",
        ComparisonSign::Less => "<",
        ComparisonSign::Greater => ">",
        ComparisonSign::LessEqual => "<=",
        ComparisonSign::GreaterEqual => ">=",
    }
}

fn shift_sign(sign: ShiftSign) -> &'static str {
    match sign {
        ShiftSign::Left => "<<",
        ShiftSign::Right => ">>",
    }
}

fn sum_sign(sign: SumSign) -> &'static str {
    match sign {
        SumSign::Plus => "+",
        SumSign::Minus => "-",
    }
}

fn product_sign(sign: ProductSign) -> &'static str {
    match sign {
        ProductSign::Times => "*",
        ProductSign::Divide => "\\",
        ProductSign::Modulo => "mod",
    }
}

fn update_sign(sign: UpdateSign) -> &'static str {
    match sign {
        UpdateSign::Plus => "+=",
        UpdateSign::Minus => "-=",
        UpdateSign::Times => "*=",
        UpdateSign::Divide => "\\=",
    }
}

fn count_sign(sign: CountSign) -> &'static str {
    match sign {
        CountSign::Increment => "++",
        CountSign::Decrement => "--",
    }
}

fn key(out: &mut String, key: &Key) -> Result<(), AllocError> {
    match key {
        Key::Word(word) => name(out, word),
        Key::Quoted(at, text) => spelling(out, text, *at),
    }
}

#[cycle(tree_text)]
fn primary(out: &mut String, value: &Primary) -> Result<(), AllocError> {
    match value {
        Primary::Number(at, digits) => spelling(out, digits, *at),
        Primary::Text(at, text) => spelling(out, text, *at),
        Primary::True(at) => word(out, "true", *at),
        Primary::False(at) => word(out, "false", *at),
        Primary::Invalid(at) => word(out, "invalid", *at),
        Primary::Variable(variable) => name(out, variable),
        Primary::Bracketed(at, inner) => {
            word(out, "(brackets", *at)?;
            out.push_str(" ")?;
            expression(out, inner.get())?;
            out.push_str(")")
        }
        Primary::Array(at, items) => {
            word(out, "(array", *at)?;
            expressions(out, items.as_slice())?;
            out.push_str(")")
        }
        Primary::Pairs(at, pairs) => {
            word(out, "(pairs", *at)?;
            for pair in pairs.as_slice() {
                out.push_str(" (")?;
                key(out, &pair.key)?;
                out.push_str(" ")?;
                expression(out, &pair.value)?;
                out.push_str(")")?;
            }
            out.push_str(")")
        }
        Primary::AnonymousFunction(at, inner) => {
            word(out, "(function", *at)?;
            rest(out, inner)
        }
        Primary::AnonymousSub(at, inner) => {
            word(out, "(sub", *at)?;
            rest(out, inner)
        }
    }
}

/// Expressions, each behind a space.
#[cycle(tree_text)]
fn expressions(out: &mut String, values: &[Expression]) -> Result<(), AllocError> {
    for value in values {
        out.push_str(" ")?;
        expression(out, value)?;
    }
    Ok(())
}

/// Members, indexes and arguments, each behind a space.
#[cycle(tree_text)]
fn postfixes(out: &mut String, parts: &[Postfix]) -> Result<(), AllocError> {
    for part in parts {
        match part {
            Postfix::Member(at, member) => {
                word(out, " (member", *at)?;
                out.push_str(" ")?;
                name(out, member)?;
            }
            Postfix::Index(at, index) => {
                word(out, " (index", *at)?;
                out.push_str(" ")?;
                expression(out, index)?;
            }
            Postfix::Arguments(at, arguments) => {
                word(out, " (arguments", *at)?;
                expressions(out, arguments.as_slice())?;
            }
        }
        out.push_str(")")?;
    }
    Ok(())
}

#[cycle(tree_text)]
fn value(out: &mut String, value: &Value) -> Result<(), AllocError> {
    if value.more.is_empty() {
        return primary(out, &value.first);
    }
    out.push_str("(value ")?;
    primary(out, &value.first)?;
    postfixes(out, value.more.as_slice())?;
    out.push_str(")")
}

#[cycle(tree_text)]
fn minus(out: &mut String, operand: &Minus) -> Result<(), AllocError> {
    match operand {
        Minus::Negative(at, inner) => {
            word(out, "(minus", *at)?;
            out.push_str(" ")?;
            minus(out, inner.get())?;
            out.push_str(")")
        }
        Minus::Positive(inner) => value(out, inner),
    }
}

#[cycle(tree_text)]
fn product(out: &mut String, chain: &Product) -> Result<(), AllocError> {
    if chain.more.is_empty() {
        return minus(out, &chain.first);
    }
    out.push_str("(product ")?;
    minus(out, &chain.first)?;
    for part in chain.more.as_slice() {
        out.push_str(" (")?;
        word(out, product_sign(part.sign), part.place)?;
        out.push_str(" ")?;
        minus(out, &part.operand)?;
        out.push_str(")")?;
    }
    out.push_str(")")
}

#[cycle(tree_text)]
fn sum(out: &mut String, chain: &Sum) -> Result<(), AllocError> {
    if chain.more.is_empty() {
        return product(out, &chain.first);
    }
    out.push_str("(sum ")?;
    product(out, &chain.first)?;
    for part in chain.more.as_slice() {
        out.push_str(" (")?;
        word(out, sum_sign(part.sign), part.place)?;
        out.push_str(" ")?;
        product(out, &part.operand)?;
        out.push_str(")")?;
    }
    out.push_str(")")
}

#[cycle(tree_text)]
fn shift(out: &mut String, chain: &Shift) -> Result<(), AllocError> {
    if chain.more.is_empty() {
        return sum(out, &chain.first);
    }
    out.push_str("(shift ")?;
    sum(out, &chain.first)?;
    for part in chain.more.as_slice() {
        out.push_str(" (")?;
        word(out, shift_sign(part.sign), part.place)?;
        out.push_str(" ")?;
        sum(out, &part.operand)?;
        out.push_str(")")?;
    }
    out.push_str(")")
}

#[cycle(tree_text)]
fn comparison(out: &mut String, chain: &Comparison) -> Result<(), AllocError> {
    if chain.more.is_empty() {
        return shift(out, &chain.first);
    }
    out.push_str("(comparison ")?;
    shift(out, &chain.first)?;
    for part in chain.more.as_slice() {
        out.push_str(" (")?;
        word(out, comparison_sign(part.sign), part.place)?;
        out.push_str(" ")?;
        shift(out, &part.operand)?;
        out.push_str(")")?;
    }
    out.push_str(")")
}

#[cycle(tree_text)]
fn negation(out: &mut String, operand: &Negation) -> Result<(), AllocError> {
    match operand {
        Negation::Not(at, inner) => {
            word(out, "(not", *at)?;
            out.push_str(" ")?;
            negation(out, inner.get())?;
            out.push_str(")")
        }
        Negation::Plain(inner) => comparison(out, inner),
    }
}

#[cycle(tree_text)]
fn conjunction(out: &mut String, chain: &Conjunction) -> Result<(), AllocError> {
    if chain.more.is_empty() {
        return negation(out, &chain.first);
    }
    out.push_str("(conjunction ")?;
    negation(out, &chain.first)?;
    for part in chain.more.as_slice() {
        word(out, " (and", part.place)?;
        out.push_str(" ")?;
        negation(out, &part.operand)?;
        out.push_str(")")?;
    }
    out.push_str(")")
}

#[cycle(tree_text)]
fn expression(out: &mut String, chain: &Expression) -> Result<(), AllocError> {
    if chain.more.is_empty() {
        return conjunction(out, &chain.first);
    }
    out.push_str("(disjunction ")?;
    conjunction(out, &chain.first)?;
    for part in chain.more.as_slice() {
        word(out, " (or", part.place)?;
        out.push_str(" ")?;
        conjunction(out, &part.operand)?;
        out.push_str(")")?;
    }
    out.push_str(")")
}

#[cycle(tree_text)]
fn target(out: &mut String, target: &Target) -> Result<(), AllocError> {
    if target.more.is_empty() {
        return name(out, &target.name);
    }
    out.push_str("(target ")?;
    name(out, &target.name)?;
    postfixes(out, target.more.as_slice())?;
    out.push_str(")")
}

#[cycle(tree_text)]
fn print_items(out: &mut String, items: &[PrintItem]) -> Result<(), AllocError> {
    for item in items {
        match item {
            PrintItem::Semicolon => out.push_str(" ;")?,
            PrintItem::Comma => out.push_str(" ,")?,
            PrintItem::Value(value) => {
                out.push_str(" ")?;
                expression(out, value)?;
            }
        }
    }
    Ok(())
}

#[cycle(tree_text)]
fn simple(out: &mut String, statement: &Simple) -> Result<(), AllocError> {
    match statement {
        Simple::Assign(to, at, value) => {
            out.push_str("(assign ")?;
            target(out, to)?;
            word(out, " =", *at)?;
            out.push_str(" ")?;
            expression(out, value)?;
        }
        Simple::Update(to, at, sign, value) => {
            out.push_str("(update ")?;
            target(out, to)?;
            out.push_str(" ")?;
            word(out, update_sign(*sign), *at)?;
            out.push_str(" ")?;
            expression(out, value)?;
        }
        Simple::Count(to, at, sign) => {
            out.push_str("(count ")?;
            target(out, to)?;
            out.push_str(" ")?;
            word(out, count_sign(*sign), *at)?;
        }
        Simple::Call(called) => {
            out.push_str("(call ")?;
            target(out, called)?;
        }
        Simple::Print(at, items) => {
            word(out, "(print", *at)?;
            print_items(out, items.as_slice())?;
        }
        Simple::Return(at, value) => {
            word(out, "(return", *at)?;
            if let Some(value) = value {
                out.push_str(" ")?;
                expression(out, value)?;
            }
        }
        Simple::Exit(at, LoopKind::For) => word(out, "(exit for", *at)?,
        Simple::Exit(at, LoopKind::While) => word(out, "(exit while", *at)?,
    }
    out.push_str(")")
}

/// Statements of one line, in braces behind a space.
#[cycle(tree_text)]
fn run(out: &mut String, statements: &[Simple]) -> Result<(), AllocError> {
    out.push_str(" {")?;
    for statement in statements {
        simple(out, statement)?;
    }
    out.push_str("}")
}

/// The statements of a block, in braces behind a space.
#[cycle(tree_text)]
fn block(out: &mut String, statements: &[Statement]) -> Result<(), AllocError> {
    out.push_str(" {")?;
    for inner in statements {
        statement(out, inner)?;
    }
    out.push_str("}")
}

#[cycle(tree_text)]
fn block_arm(out: &mut String, arm: &BlockArm) -> Result<(), AllocError> {
    word(out, " (arm", arm.place)?;
    out.push_str(" ")?;
    expression(out, &arm.condition)?;
    block(out, arm.block.as_slice())?;
    out.push_str(")")
}

#[cycle(tree_text)]
fn line_arm(out: &mut String, arm: &LineArm) -> Result<(), AllocError> {
    word(out, " (arm", arm.place)?;
    out.push_str(" ")?;
    expression(out, &arm.condition)?;
    run(out, arm.run.as_slice())?;
    out.push_str(")")
}

#[cycle(tree_text)]
fn block_arms(out: &mut String, arms: &[BlockArm]) -> Result<(), AllocError> {
    for arm in arms {
        block_arm(out, arm)?;
    }
    Ok(())
}

#[cycle(tree_text)]
fn line_arms(out: &mut String, arms: &[LineArm]) -> Result<(), AllocError> {
    for arm in arms {
        line_arm(out, arm)?;
    }
    Ok(())
}

#[cycle(tree_text)]
fn statement(out: &mut String, statement: &Statement) -> Result<(), AllocError> {
    match statement {
        Statement::Simple(inner) => return simple(out, inner),
        Statement::BlockIf(first, more, other) => {
            out.push_str("(if")?;
            block_arm(out, first)?;
            block_arms(out, more.as_slice())?;
            if let Some(other) = other {
                out.push_str(" else")?;
                block(out, other.as_slice())?;
            }
        }
        Statement::LineIf(first, more, other) => {
            out.push_str("(line if")?;
            line_arm(out, first)?;
            line_arms(out, more.as_slice())?;
            if let Some(other) = other {
                out.push_str(" else")?;
                run(out, other.as_slice())?;
            }
        }
        Statement::For(at, variable, first, last, step, body) => {
            word(out, "(for", *at)?;
            out.push_str(" ")?;
            name(out, variable)?;
            out.push_str(" ")?;
            expression(out, first.get())?;
            out.push_str(" to ")?;
            expression(out, last.get())?;
            if let Some(step) = step {
                out.push_str(" step ")?;
                expression(out, step.get())?;
            }
            block(out, body.as_slice())?;
        }
        Statement::ForEach(at, variable, items, body) => {
            word(out, "(for each", *at)?;
            out.push_str(" ")?;
            name(out, variable)?;
            out.push_str(" ")?;
            expression(out, items)?;
            block(out, body.as_slice())?;
        }
        Statement::While(at, condition, body) => {
            word(out, "(while", *at)?;
            out.push_str(" ")?;
            expression(out, condition)?;
            block(out, body.as_slice())?;
        }
    }
    out.push_str(")")
}

#[cycle(tree_text)]
fn parameter(out: &mut String, parameter: &Parameter) -> Result<(), AllocError> {
    out.push_str(" (")?;
    name(out, &parameter.name)?;
    if let Some(value) = &parameter.default {
        out.push_str(" = ")?;
        expression(out, value)?;
    }
    type_word(out, parameter.kind)?;
    out.push_str(")")
}

/// Parameters, the type and the body, and the bracket that closes the function.
#[cycle(tree_text)]
fn rest(out: &mut String, rest: &Rest) -> Result<(), AllocError> {
    for inner in rest.parameters.as_slice() {
        parameter(out, inner)?;
    }
    type_word(out, rest.value)?;
    block(out, rest.body.as_slice())?;
    out.push_str(")")
}

fn named_function(out: &mut String, function: &NamedFunction) -> Result<(), AllocError> {
    match function {
        NamedFunction::Function(at, called, inner) => {
            word(out, "(function", *at)?;
            out.push_str(" ")?;
            name(out, called)?;
            rest(out, inner)
        }
        NamedFunction::Sub(at, called, inner) => {
            word(out, "(sub", *at)?;
            out.push_str(" ")?;
            name(out, called)?;
            rest(out, inner)
        }
    }
}

/// The printed form of a file's tree.
pub fn tree_text(alloc: Global, tree: &FileTree) -> Result<String, AllocError> {
    let mut out = String::new(alloc);
    for function in tree.functions.as_slice() {
        named_function(&mut out, function)?;
    }
    Ok(out)
}
