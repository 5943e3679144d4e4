//! The name of a value's type.
ghost use Rattle.std.specs.Prelude.{◌≡◌, IfOk};
ghost use Rattle.heap_meaning.specs.Heap.{content_at};
ghost use Rattle.heap_meaning.specs.Reading.{plain_of, shape_in};
ghost use Rattle.object_operations.specs.Applies.{Applies};
ghost use Rattle.object_operations.specs.Types.{plain_type, shape_type, type_in, type_row};

use crate::Applied;
use brs_heap::{Heap, Plain, Shape, Value};
use chan_values::{ErrorCode, NoMemory, Text};
use std::alloc::Global;

fn plain_type_name(plain: Plain) -> &'static str
    ensures { result.now ≡ plain_type plain }
{
    match plain {
        Plain::Invalid => "Invalid",
        Plain::Truth(_) => "Boolean",
        Plain::Small(_) => "Integer",
        Plain::Big(_) => "LongInteger",
        Plain::Function(_) => "Function",
        Plain::Node(_) => "roSGNode",
        Plain::Port(_) => "roMessagePort",
        Plain::Screen => "roSGScreen",
    }
}

fn shape_type_name(shape: Shape) -> &'static str
    ensures { result.now ≡ shape_type shape }
{
    match shape {
        Shape::Plain => "Invalid",
        Shape::Words => "String",
        Shape::Array => "roArray",
        Shape::Pairs => "roAssociativeArray",
        Shape::Message => "roSGNodeEvent",
    }
}

/// The name of a value's type. Takes no memory.
fn type_name_of(heap: &Heap, v: &Value) -> &'static str
    ensures { result.now ≡ type_in (plain_of v.now) (shape_in (content_at heap.now v.now)) }
{
    match heap.plain(v) {
        Some(plain) => plain_type_name(plain),
        None => shape_type_name(heap.shape(v)),
    }
}

/// `Type(v)`
///
/// Source: BrightScript Language Reference, "Runtime Functions": Type.
pub fn call_type(alloc: Global, heap: &mut Heap, arguments: &[Value]) -> Result<Applied, NoMemory>
    ensures answer { IfOk result (λ r. Applies heap.old heap.new arguments.now r type_row) }
    ensures shares { heap.new.shares ≡ heap.old.shares }
{
    let [v] = arguments else {
        return Ok(Applied::Raised(ErrorCode::E6));
    };
    let mut text = Text::new(alloc);
    text.push_str(type_name_of(heap, v))?;
    Ok(Applied::Value(heap.make_text(text)?))
}
