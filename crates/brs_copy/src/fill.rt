//! Portable values that are made of values of a heap which keep the bounds.
ghost use Rattle.std.specs.Prelude.{◌≡◌, ℕ, Some, IfOk};
ghost use Rattle.chan_values.specs.Tree.{Leaf, trees, values_of, keys_of};
ghost use Rattle.chan_values.specs.View.{tree_of};
ghost use Rattle.heap_meaning.specs.Heap.{content_at};
ghost use Rattle.heap_meaning.specs.Reading.{children_in, keys_in, shape_in};
ghost use Rattle.heap_meaning.specs.declared.shape.Shape.TheVariants as s;
ghost use Rattle.copy_meaning.specs.Bounded.{tree_within, each};
ghost use Rattle.copy_meaning.specs.Forms as f;
ghost use Rattle.copy_meaning.specs.Forms.{form_at};
ghost use Rattle.brs_copy.specs.Fits.{Fits, FitsAll};

use brs_heap::{Heap, Plain, Shape, Value};
use chan_values::{ItemList, NoMemory, Pair, PairList, Portable, copy_text};
use std::alloc::Global;

/// What a plain value is outside its actor.
fn leaving(plain: Plain) -> Portable
    ensures { tree_of result ≡ Leaf (f.leaving plain) }
{
    match plain {
        Plain::Invalid | Plain::Function(_) | Plain::Screen => Portable::Nothing,
        Plain::Truth(b) => Portable::Truth(b),
        Plain::Small(n) => Portable::Small(n),
        Plain::Big(n) => Portable::Big(n),
        Plain::Node(n) => Portable::Node(n),
        Plain::Port(n) => Portable::Port(n),
    }
}

/// A value without a cell.
fn fill_plain(heap: &Heap, v: &Value) -> Portable
    requires { shape_in (content_at heap.now v.now) ≡ s.Plain }
    ensures { (bound : ℕ) → tree_within (form_at heap.now) bound v.now ≡ Some (tree_of result) }
{
    match heap.plain(v) {
        Some(plain) => leaving(plain),
        None => Portable::Nothing,
    }
}

/// A text of the heap.
fn fill_words(alloc: Global, heap: &Heap, v: &Value) -> Result<Portable, NoMemory>
    requires { shape_in (content_at heap.now v.now) ≡ s.Words }
    ensures { IfOk result (λ p. (bound : ℕ) → tree_within (form_at heap.now) bound v.now ≡ Some (tree_of p)) }
{
    let Some(text) = heap.text(v) else {
        unreachable!()
    };
    Ok(Portable::Words(copy_text(alloc, text)?))
}

/// The copies of an array's items.
#[cycle(fill)]
fn fill_items(alloc: Global, heap: &Heap, v: &Value, bound: u32) -> Result<ItemList, NoMemory>
    requires { FitsAll (each (tree_within (form_at heap.now) bound) (children_in (content_at heap.now v.now))) }
    ensures { IfOk result (λ copies. each (tree_within (form_at heap.now) bound) (children_in (content_at heap.now v.now)) ≡ Some (trees copies)) }
{
    let mut copies = ItemList::new(alloc);
    for at in 0..heap.length(v) {
        let Some(item) = heap.child(v, at) else {
            unreachable!()
        };
        let copy = fill(alloc, heap, item, bound)?;
        copies.push(copy)?;
    }
    Ok(copies)
}

/// The keys of an associative array with the copies of their values.
#[cycle(fill)]
fn fill_pairs(alloc: Global, heap: &Heap, v: &Value, bound: u32) -> Result<PairList, NoMemory>
    requires fits { FitsAll (each (tree_within (form_at heap.now) bound) (children_in (content_at heap.now v.now))) }
    requires pairs { shape_in (content_at heap.now v.now) ≡ s.Pairs }
    ensures values { IfOk result (λ copies. each (tree_within (form_at heap.now) bound) (children_in (content_at heap.now v.now)) ≡ Some (trees (values_of copies))) }
    ensures keys { IfOk result (λ copies. keys_of copies ≡ keys_in (content_at heap.now v.now)) }
{
    let mut copies = PairList::new(alloc);
    for at in 0..heap.length(v) {
        let Some(key) = heap.key_at(v, at) else {
            unreachable!()
        };
        let Some(item) = heap.child(v, at) else {
            unreachable!()
        };
        let value = fill(alloc, heap, item, bound)?;
        let key = copy_text(alloc, key)?;
        copies.push(Pair { key, value })?;
    }
    Ok(copies)
}

/// The portable value of a value that keeps the bounds.
#[cycle(fill)]
pub fn fill(alloc: Global, heap: &Heap, v: &Value, bound: u32) -> Result<Portable, NoMemory>
    requires { Fits (tree_within (form_at heap.now) bound v.now) }
    ensures { IfOk result (λ p. tree_within (form_at heap.now) bound v.now ≡ Some (tree_of p)) }
{
    match heap.shape(v) {
        Shape::Plain => Ok(fill_plain(heap, v)),
        Shape::Words => fill_words(alloc, heap, v),
        Shape::Message => Ok(Portable::Nothing),
        Shape::Array => {
            let items = fill_items(alloc, heap, v, bound - 1)?;
            Ok(Portable::Items(items))
        }
        Shape::Pairs => {
            let pairs = fill_pairs(alloc, heap, v, bound - 1)?;
            Ok(Portable::Pairs(pairs))
        }
    }
}
