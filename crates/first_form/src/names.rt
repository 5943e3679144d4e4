//! The condition on the names of a first form.
ghost use Rattle.std.specs.Prelude.{◌≡◌, ◌||◌, ℕ, List, IfOk, OnOk};
ghost use Rattle.std.specs.Str.{bytes_eq};
ghost use Rattle.std.specs.List.{list_all};
ghost use Rattle.std.specs.BTreeSet.{contains_text};
ghost use Rattle.first_form.specs.FirstForm as form;
ghost use Rattle.first_form.specs.FirstKnown.{operand_in, sum_in, item_in, line_in, known_after};

use crate::tree::{Line, Operand, PrintItem, Sum, Term};
use chan_values::NoMemory;
use std::alloc::Global;
use std::collections::BTreeSet;

/// Whether no target is `m`, and each name in a sum is the target of an earlier line.
pub(crate) fn are_names_good(alloc: Global, lines: &[Line]) -> Result<bool, NoMemory>
    ensures { IfOk result (λ good. good ≡ form.names_good lines.now) }
{
    let mut known = BTreeSet::new(alloc);
    for line in lines {
        if !is_line_good(&known, line) {
            return Ok(false);
        }
        learn(alloc, &mut known, line)?;
    }
    Ok(true)
}

fn is_line_good(known: &BTreeSet<String>, line: &Line) -> bool
    ensures { result ≡ line_in (contains_text known.now) line.now }
{
    match line {
        Line::Assign(target, sum) => target.as_str() != "m" && is_sum_known(known, sum),
        Line::Print(items) => are_items_known(known, items.as_slice()),
    }
}

fn are_items_known(known: &BTreeSet<String>, items: &[PrintItem]) -> bool
    ensures { result ≡ list_all (item_in (contains_text known.now)) items.now }
{
    items.iter().all(|item| is_item_known(known, item))
}

fn is_item_known(known: &BTreeSet<String>, item: &PrintItem) -> bool
    ensures { result ≡ item_in (contains_text known.now) item.now }
{
    match item {
        PrintItem::Words(_) => true,
        PrintItem::Sum(sum) => is_sum_known(known, sum),
    }
}

fn is_sum_known(known: &BTreeSet<String>, sum: &Sum) -> bool
    ensures { result ≡ sum_in (contains_text known.now) sum.now }
{
    is_operand_known(known, &sum.first) && are_terms_known(known, sum.more.as_slice())
}

fn are_terms_known(known: &BTreeSet<String>, terms: &[Term]) -> bool
    ensures { result ≡ list_all (λ term. operand_in (contains_text known.now) term.operand) terms.now }
{
    terms
        .iter()
        .all(|term| is_operand_known(known, &term.operand))
}

fn is_operand_known(known: &BTreeSet<String>, operand: &Operand) -> bool
    ensures { result ≡ operand_in (contains_text known.now) operand.now }
{
    match operand {
        Operand::Number(_) => true,
        Operand::Name(name) => known.contains(name.as_str()),
    }
}

/// Adds the target of a line.
fn learn(alloc: Global, known: &mut BTreeSet<String>, line: &Line) -> Result<(), NoMemory>
    ensures { OnOk result ((name : List ℕ)
        → contains_text known.new name ≡ known_after (contains_text known.old) line.now name) }
{
    match line {
        Line::Assign(target, _) => add(alloc, known, target.as_str()),
        Line::Print(_) => Ok(()),
    }
}

fn add(alloc: Global, known: &mut BTreeSet<String>, target: &str) -> Result<(), NoMemory>
    ensures { OnOk result ((name : List ℕ)
        → contains_text known.new name ≡ (bytes_eq target.now name || contains_text known.old name)) }
{
    let name = match String::from_str(alloc, target) {
        Ok(name) => name,
        Err(_) => return Err(NoMemory),
    };
    match known.insert(name) {
        Ok(_) => Ok(()),
        Err(_) => Err(NoMemory),
    }
}
