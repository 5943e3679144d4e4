//! The items and the marks of a `print`, one after another.
ghost use Rattle.std.specs.Prelude.{◌≡◌, ◌+◌, ◌<◌, ◌≤◌, ◌^◌, IfOk, IfSome};
ghost use Rattle.printed_text.specs.Marks.{text_at, Continues, Writes};
ghost use Rattle.printed_text.specs.Prints.{Prints};

use crate::items::write_item;
use crate::padding::{count_characters, pad};
use crate::printing::Printing;
use brs_code::Mark;
use brs_heap::{Heap, Value};
use chan_values::{ErrorCode, NoMemory, Text};
use plain_operations::LONGEST_TEXT;
use std::alloc::Global;

/// Adds what a mark stands for. It answers the place of the next value, and `None` exactly where the item is too deep or too large.
#[tactic(auto, using(crate::proofs::MarkLaws::comma_written, crate::proofs::MarkLaws::no_value, crate::proofs::MarkLaws::value_written, crate::proofs::MarkLaws::value_refused))]
fn write_mark(
    alloc: Global,
    heap: &Heap,
    mark: Mark,
    values: &[Value],
    next: usize,
    out: &mut Text,
) -> Result<Option<usize>, NoMemory>
    requires { next + 1 < 2 ^ 64 }
    ensures continues { IfOk result (λ left. Continues heap.now mark values.now next out.old left out.new) }
    ensures next { IfOk result (λ left. IfSome left (λ n. n ≤ next + 1)) }
{
    match mark {
        Mark::Semicolon => Ok(Some(next)),
        Mark::Comma => {
            pad(out)?;
            Ok(Some(next))
        }
        Mark::Value => match values.get(next) {
            None => Ok(Some(next)),
            Some(v) => {
                if write_item(alloc, heap, v, out)? {
                    Ok(Some(next + 1))
                } else {
                    Ok(None)
                }
            }
        },
    }
}

/// Adds what all marks stand for. It is `false` exactly where an item is too deep or too large.
#[tactic(auto, using(crate::proofs::MarkLaws::begins, crate::proofs::MarkLaws::one_mark, crate::proofs::MarkLaws::marks_refused, crate::proofs::MarkLaws::marks_end))]
fn write_marks(
    alloc: Global,
    heap: &Heap,
    marks: &[Mark],
    values: &[Value],
    out: &mut Text,
) -> Result<bool, NoMemory>
    ensures { IfOk result (λ shown. Writes (text_at heap.now marks.now values.now out.old) out.new shown) }
{
    let mut next = 0;
    for mark in marks {
        match write_mark(alloc, heap, *mark, values, next, out)? {
            None => return Ok(false),
            Some(n) => next = n,
        }
    }
    Ok(true)
}

/// The text of these values with these marks, whatever store the heap stands for. Errors: E9 where a value is too deep or too large to be
/// unfolded, and else E12 where the text has more than 1,048,576 characters. Its time is linear in the text for each comma.
///
/// Source: BrightScript Language Reference, "PRINT".
pub fn printed_text(
    alloc: Global,
    heap: &Heap,
    marks: &[Mark],
    values: &[Value],
) -> Result<Printing, NoMemory>
    ensures { IfOk result (λ printing. Prints heap.now marks.now values.now printing) }
{
    let mut text = Text::new(alloc);
    if !write_marks(alloc, heap, marks, values, &mut text)? {
        return Ok(Printing::Raises(ErrorCode::E9));
    }
    if count_characters(text.as_str()) > LONGEST_TEXT {
        return Ok(Printing::Raises(ErrorCode::E12));
    }
    Ok(Printing::Printed(text))
}
