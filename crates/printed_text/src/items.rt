//! Items of a `print`. The text of each is added at the end, and an answer of `false` says that the item is too deep or too large.
ghost use Rattle.std.specs.Prelude.{IfOk};
ghost use Rattle.brs_meaning.specs.Printing.{tree_item};
ghost use Rattle.heap_meaning.specs.Heap.{content_at};
ghost use Rattle.printed_text.specs.Items.{copied, content_item, item_at, Added};

use crate::plain_items::write_plain;
use brs_copy::{CopyFault, copy_out};
use brs_heap::{Heap, Value};
use chan_values::{NoMemory, Text, text_of_value};
use std::alloc::Global;

/// An array or an associative array, as what it unfolds to.
fn write_copy(alloc: Global, heap: &Heap, v: &Value, out: &mut Text) -> Result<bool, NoMemory>
    ensures { IfOk result (λ shown. Added (tree_item (copied heap.now v.now)) out.old out.new shown) }
{
    match copy_out(alloc, heap, v) {
        Ok(copy) => {
            let text = text_of_value(alloc, &copy)?;
            out.push_str(text.as_str())?;
            Ok(true)
        }
        Err(CopyFault::TooDeep) => Ok(false),
        Err(CopyFault::TooLarge) => Ok(false),
        Err(CopyFault::NoMemory) => Err(NoMemory),
    }
}

/// A value with a cell.
#[tactic(auto, using(crate::proofs::ItemLaws::text_added, crate::proofs::ItemLaws::message_added, crate::proofs::ItemLaws::copy_of_cell))]
fn write_content(alloc: Global, heap: &Heap, v: &Value, out: &mut Text) -> Result<bool, NoMemory>
    ensures { IfOk result (λ shown. Added (content_item (content_at heap.now v.now) (copied heap.now v.now)) out.old out.new shown) }
{
    match (heap.text(v), heap.message(v)) {
        (Some(text), _) => {
            out.push_str(text.as_str())?;
            Ok(true)
        }
        (None, Some(_)) => {
            out.push_str("message")?;
            Ok(true)
        }
        (None, None) => write_copy(alloc, heap, v, out),
    }
}

#[tactic(auto, using(crate::proofs::ItemLaws::plain_added, crate::proofs::ItemLaws::cell_added))]
pub fn write_item(alloc: Global, heap: &Heap, v: &Value, out: &mut Text) -> Result<bool, NoMemory>
    ensures { IfOk result (λ shown. Added (item_at heap.now v.now) out.old out.new shown) }
{
    match heap.plain(v) {
        Some(plain) => {
            write_plain(alloc, plain, out)?;
            Ok(true)
        }
        None => write_content(alloc, heap, v, out),
    }
}
