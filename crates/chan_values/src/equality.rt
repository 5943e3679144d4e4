//! Deep equality of portable values.
ghost use Rattle.std.specs.Prelude.{◌≡◌, ◌↔◌, IsTrue};
ghost use Rattle.chan_values.specs.View.{tree_pair_of};

use crate::{ItemList, Pair, PairList, Portable, Text};

/// Whether both texts are the same.
fn same_text(a: &Text, b: &Text) -> bool
    ensures { IsTrue result ↔ (a.now ≡ b.now) }
{
    a.as_str() == b.as_str()
}

/// Whether both lists have the same items.
#[cycle(same)]
fn same_items(xs: &ItemList, ys: &ItemList) -> bool
    ensures { IsTrue result ↔ (xs.now ≡ ys.now) }
{
    let left = xs.as_slice();
    let right = ys.as_slice();
    if left.len() != right.len() {
        return false;
    }
    for at in 0..left.len() {
        if !same(&left[at], &right[at]) {
            return false;
        }
    }
    true
}

/// Whether both have the same key with the same value.
#[cycle(same)]
fn same_pair(x: &Pair, y: &Pair) -> bool
    ensures { IsTrue result ↔ (tree_pair_of x.now ≡ tree_pair_of y.now) }
{
    if !same_text(&x.key, &y.key) {
        return false;
    }
    same(&x.value, &y.value)
}

/// Whether both lists have the same keys with the same values.
#[cycle(same)]
fn same_pairs(xs: &PairList, ys: &PairList) -> bool
    ensures { IsTrue result ↔ (xs.now ≡ ys.now) }
{
    let left = xs.as_slice();
    let right = ys.as_slice();
    if left.len() != right.len() {
        return false;
    }
    for at in 0..left.len() {
        if !same_pair(&left[at], &right[at]) {
            return false;
        }
    }
    true
}

/// Whether both values have the same kind and the same content throughout. Takes no memory.
#[cycle(same)]
pub fn same(a: &Portable, b: &Portable) -> bool
    ensures { IsTrue result ↔ (a.now ≡ b.now) }
{
    match (a, b) {
        (Portable::Nothing, Portable::Nothing) => true,
        (Portable::Truth(x), Portable::Truth(y)) => x == y,
        (Portable::Small(x), Portable::Small(y)) => x == y,
        (Portable::Big(x), Portable::Big(y)) => x == y,
        (Portable::Words(s), Portable::Words(t)) => same_text(s, t),
        (Portable::Items(xs), Portable::Items(ys)) => same_items(xs, ys),
        (Portable::Pairs(xs), Portable::Pairs(ys)) => same_pairs(xs, ys),
        (Portable::Node(x), Portable::Node(y)) | (Portable::Port(x), Portable::Port(y)) => x == y,
        _ => false,
    }
}
