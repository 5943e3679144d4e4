//! Lists that a form keeps beside its operands.
ghost use Rattle.std.specs.Prelude.{◌≡◌, ◌≤◌, [], ◌∷◌, map, IfOk};
ghost use Rattle.brs_forms.specs.Words.{key_of};
ghost use Rattle.brs_grammar.specs.View.{pair_of, parameter_of, params, print_item_of, mark as form_mark, shown};
ghost use Rattle.code_relation.specs.Heads as heads;
ghost use Rattle.code_relation.specs.Heads.{count};

use crate::words::key_word;
use brs_code::Mark;
use brs_grammar::tree::{Pair, Parameter, PrintItem};
use chan_values::{NoMemory, Text};
use sqlite_items::Items;
use std::alloc::Global;

/// The folded keys of pairs.
pub fn keys(alloc: Global, xs: &[Pair]) -> Result<Items<Text>, NoMemory>
    ensures { IfOk result (λ keys. keys ≡ map key_of (map (λ x. x.key) (map pair_of xs.now))) }
{
    let mut keys = Items::new(alloc);
    for x in xs {
        match keys.push(key_word(alloc, &x.key)?) {
            Ok(()) => {}
            Err(_) => return Err(NoMemory),
        }
    }
    Ok(keys)
}

/// What a separator or a value of a `print` is.
#[tactic(auto, using(crate::proofs::Prints::mark_rules))]
fn mark(x: &PrintItem) -> Mark
    ensures { result ≡ heads.mark_of (form_mark (print_item_of x.now)) }
{
    match x {
        PrintItem::Semicolon => Mark::Semicolon,
        PrintItem::Comma => Mark::Comma,
        PrintItem::Value(_) => Mark::Value,
    }
}

/// The marks of a `print`.
pub fn marks(alloc: Global, xs: &[PrintItem]) -> Result<Items<Mark>, NoMemory>
    ensures { IfOk result (λ marks. marks ≡ map heads.mark_of (map form_mark (map print_item_of xs.now))) }
{
    let mut marks = Items::new(alloc);
    for x in xs {
        match marks.push(mark(x)) {
            Ok(()) => {}
            Err(_) => return Err(NoMemory),
        }
    }
    Ok(marks)
}

#[tactic(auto, using(crate::proofs::Prints::count_rules))]
fn value_count(x: &PrintItem) -> usize
    ensures is { result ≡ count (shown (print_item_of x.now ∷ [])) }
    ensures most { result ≤ 1 }
{
    match x {
        PrintItem::Semicolon => 0,
        PrintItem::Comma => 0,
        PrintItem::Value(_) => 1,
    }
}

/// How many values a `print` has.
pub fn count_values(xs: &[PrintItem]) -> usize
    ensures { result ≡ count (shown (map print_item_of xs.now)) }
{
    let mut values = 0;
    for x in xs {
        values += value_count(x);
    }
    values
}

/// How many arguments a call needs: up to the last parameter without a default.
pub fn needed(xs: &[Parameter]) -> usize
    ensures { result ≡ heads.needed_of (params (map parameter_of xs.now)) }
{
    let mut found = 0;
    for (i, x) in xs.iter().enumerate() {
        match &x.default {
            None => found = i + 1,
            Some(_) => {}
        }
    }
    found
}
