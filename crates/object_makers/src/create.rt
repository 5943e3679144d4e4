//! Objects that are made by name.
ghost use Rattle.std.specs.Prelude.{◌≡◌, [], IfOk, option_map};
ghost use Rattle.chan_values.specs.Folded.{folded};
ghost use Rattle.heap_meaning.specs.Heap.{content_at};
ghost use Rattle.heap_meaning.specs.Reading.{text_in};
ghost use Rattle.object_operations.specs.Applies.{Applies};
ghost use Rattle.object_operations.specs.Types.{map_made, made, create_row};

use brs_heap::{Heap, Plain, Value};
use chan_values::{ErrorCode, NoMemory, Text, fold_name};
use object_operations::Applied;
use std::alloc::Global;

/// The folded name of an array.
const ARRAY: &[u8] = b"roarray";

/// The folded name of an associative array.
const MAP: &[u8] = b"roassociativearray";

/// A text with its capital letters as small ones, `None` exactly where the value is none.
fn folded_text(alloc: Global, heap: &Heap, v: &Value) -> Result<Option<Text>, NoMemory>
    ensures { IfOk result (λ text. text ≡ option_map folded (text_in (content_at heap.now v.now))) }
{
    match heap.text(v) {
        None => Ok(None),
        Some(text) => Ok(Some(fold_name(alloc, text.as_str().as_bytes())?)),
    }
}

/// An empty associative array.
fn make_empty_map(heap: &mut Heap) -> Result<Applied, NoMemory>
    ensures answer { IfOk result (λ r. Applies heap.old heap.new [] r map_made) }
    ensures shares { heap.new.shares ≡ heap.old.shares }
{
    Ok(Applied::Value(heap.make_pairs()?))
}

/// The same, where there are no further arguments.
fn make_map(heap: &mut Heap, arguments: &[Value]) -> Result<Applied, NoMemory>
    ensures answer { IfOk result (λ r. Applies heap.old heap.new arguments.now r map_made) }
    ensures shares { heap.new.shares ≡ heap.old.shares }
{
    match arguments {
        [] => make_empty_map(heap),
        _ => Ok(Applied::Raised(ErrorCode::E6)),
    }
}

/// The object with a folded name, and the further arguments of the call.
fn make_object(heap: &mut Heap, name: &[u8], arguments: &[Value]) -> Result<Applied, NoMemory>
    ensures answer { IfOk result (λ r. Applies heap.old heap.new arguments.now r (made name.now)) }
    ensures shares { heap.new.shares ≡ heap.old.shares }
{
    if name == ARRAY {
        return Ok(Applied::Value(heap.make_array()?));
    }
    if name != MAP {
        return Ok(Applied::Value(Value::plain(Plain::Invalid)));
    }
    make_map(heap, arguments)
}

/// `CreateObject(k, ..)`, for what needs no node, no port and no screen: `roArray` makes an empty array, whatever
/// further arguments there are, `roAssociativeArray` an empty associative array, and any other name gives `invalid`. E6
/// without an argument, E2 where the first one is no String, E6 where `roAssociativeArray` has a further one.
///
/// Source: BrightScript Language Reference, "Runtime Functions": CreateObject.
pub fn create_object(
    alloc: Global,
    heap: &mut Heap,
    arguments: &[Value],
) -> Result<Applied, NoMemory>
    ensures answer { IfOk result (λ r. Applies heap.old heap.new arguments.now r create_row) }
    ensures shares { heap.new.shares ≡ heap.old.shares }
{
    let [name, arguments @ ..] = arguments else {
        return Ok(Applied::Raised(ErrorCode::E6));
    };
    let Some(name) = folded_text(alloc, heap, name)? else {
        return Ok(Applied::Raised(ErrorCode::E2));
    };
    make_object(heap, name.as_str().as_bytes(), arguments)
}
