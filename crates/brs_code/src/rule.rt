//! The tests of the rule of valid code. They take no memory.
ghost use Rattle.std.specs.Prelude.{◌≡◌, ◌+◌, ◌<◌, ◌≤◌, ◌↔◌, IsTrue, IfSome, All, slice_get, length, true};
ghost use Rattle.brs_code.specs.Instruction as spec;
ghost use Rattle.brs_code.specs.Rule.{LeadsTo, is_value, HasMarks, NamesExist, InstructionRule, ParameterRule, FunctionRule};

use crate::effect::{goes_on, is_free_turn, pops, turn_of};
use crate::{Function, Instr, Mark, Parameter, Placed};

// ---- ways

/// Whether an instruction stands at the place `to` that begins with `left` and `leaves` operands.
fn leads_to(code: &[Placed], to: usize, left: usize, leaves: usize) -> bool
    ensures { IsTrue result ↔ LeadsTo code.now to (left + leaves) }
{
    match code.get(to) {
        Some(next) => match next.operands.checked_sub(leaves) {
            Some(below) => below == left,
            None => false,
        },
        None => false,
    }
}

fn goes_on_well(code: &[Placed], next: usize, instr: Instr, left: usize) -> bool
    ensures { IsTrue result ↔ IfSome (spec.goes_on instr) (λ leaves. LeadsTo code.now next (left + leaves)) }
{
    match goes_on(instr) {
        Some(leaves) => leads_to(code, next, left, leaves),
        None => true,
    }
}

fn turns_well(code: &[Placed], instr: Instr, left: usize) -> bool
    ensures { IsTrue result ↔ IfSome (spec.turn instr) (λ t. LeadsTo code.now t.to (left + t.leaves)) }
{
    match turn_of(instr) {
        Some(turn) => leads_to(code, turn.to, left, turn.leaves),
        None => true,
    }
}

/// Whether a turn that takes no step leads forward.
fn leads_forward(instr: Instr, at: usize) -> bool
    ensures { IsTrue result ↔ (spec.is_free_turn instr ≡ true → IfSome (spec.turn instr) (λ t. at < t.to)) }
{
    match turn_of(instr) {
        Some(turn) => !is_free_turn(instr) || at < turn.to,
        None => true,
    }
}

// ---- names

fn is_value(mark: Mark) -> bool
    ensures { result ≡ is_value mark }
{
    match mark {
        Mark::Value => true,
        Mark::Semicolon => false,
        Mark::Comma => false,
    }
}

/// Whether so many marks from the first one on are there, of which so many stand for a value.
fn has_marks(all: &[Mark], first: usize, count: usize, values: usize) -> bool
    ensures { IsTrue result ↔ HasMarks all.now first count values }
{
    match all.len().checked_sub(first) {
        Some(room) => {
            count <= room
                && all[first..first + count]
                    .iter()
                    .filter(|mark| is_value(**mark))
                    .count()
                    == values
        }
        None => false,
    }
}

fn is_span(first: usize, count: usize, len: usize) -> bool
    ensures { IsTrue result ↔ (first + count ≤ len) }
{
    match len.checked_sub(first) {
        Some(room) => count <= room,
        None => false,
    }
}

fn is_sum_below(first: usize, number: usize, len: usize) -> bool
    ensures { IsTrue result ↔ (first + number < len) }
{
    match len.checked_sub(first) {
        Some(room) => number < room,
        None => false,
    }
}

/// Whether each slot, text, mark, function and parameter that the instruction names is there.
fn names_exist(f: &Function, anonymous: usize, instr: Instr) -> bool
    ensures { IsTrue result ↔ NamesExist f.now anonymous instr }
{
    match instr {
        Instr::Text(text) => text < f.texts.len(),
        Instr::Member(name) => name < f.texts.len(),
        Instr::CallMember(name, _) => name < f.texts.len(),
        Instr::StoreMember(name) => name < f.texts.len(),
        Instr::KeepMember(name) => name < f.texts.len(),
        Instr::MakePairs(key, count) => is_span(key, count, f.texts.len()),
        Instr::Load(slot) => slot < f.names.len(),
        Instr::Store(slot) => slot < f.names.len(),
        Instr::For(slot) => slot < f.names.len(),
        Instr::ForStep(slot) => slot < f.names.len(),
        Instr::ForTest(slot, _) => slot < f.names.len(),
        Instr::ForNext(slot, _) => slot < f.names.len(),
        Instr::EachNext(slot, _) => slot < f.names.len(),
        Instr::Print(mark, marks, values) => has_marks(f.marks.as_slice(), mark, marks, values),
        Instr::Function(number) => is_sum_below(f.first, number, anonymous),
        Instr::Bind(number) => number < f.parameters.len(),
        _ => true,
    }
}

// ---- instructions and functions

fn keeps_rule(f: &Function, anonymous: usize, at: usize, x: Placed) -> bool
    requires { at < length f.now.code }
    ensures { IsTrue result ↔ InstructionRule f.now anonymous at x }
{
    let Some(count) = pops(x.instr) else {
        return false;
    };
    let Some(left) = x.operands.checked_sub(count) else {
        return false;
    };
    let code = f.code.as_slice();
    goes_on_well(code, at + 1, x.instr, left)
        && turns_well(code, x.instr, left)
        && leads_forward(x.instr, at)
        && names_exist(f, anonymous, x.instr)
}

fn instructions_keep_rule(f: &Function, anonymous: usize) -> bool
    ensures { IsTrue result ↔ ((at : _) → IfSome (slice_get f.now.code at) (InstructionRule f.now anonymous at)) }
{
    let code: &[Placed] = f.code.as_slice();
    for (at, x) in code.iter().enumerate() {
        if !keeps_rule(f, anonymous, at, *x) {
            return false;
        }
    }
    true
}

fn parameter_keeps_rule(f: &Function, x: Parameter) -> bool
    ensures { IsTrue result ↔ ParameterRule f.now x }
{
    x.slot < f.names.len() && leads_to(f.code.as_slice(), x.entry, 0, 0)
}

fn parameters_keep_rule(f: &Function) -> bool
    ensures { IsTrue result ↔ All (ParameterRule f.now) f.now.parameters }
{
    let parameters: &[Parameter] = f.parameters.as_slice();
    for x in parameters {
        if !parameter_keeps_rule(f, *x) {
            return false;
        }
    }
    true
}

fn function_keeps_rule(f: &Function, anonymous: usize) -> bool
    ensures { IsTrue result ↔ FunctionRule anonymous f.now }
{
    f.first <= anonymous
        && leads_to(f.code.as_slice(), f.start, 0, 0)
        && parameters_keep_rule(f)
        && instructions_keep_rule(f, anonymous)
}

/// Whether each of these functions keeps the rule, in a code with so many anonymous functions.
pub(crate) fn functions_keep_rule(functions: &[Function], anonymous: usize) -> bool
    ensures { IsTrue result ↔ All (FunctionRule anonymous) functions.now }
{
    for f in functions {
        if !function_keeps_rule(f, anonymous) {
            return false;
        }
    }
    true
}
