//! Values of a heap as operators, and functions and methods of numbers and texts, see them.
ghost use Rattle.std.specs.Prelude.{◌≡◌};
ghost use Rattle.plain_operations.specs.Operand.{operand_of};
ghost use Rattle.plain_operations.specs.Shape.{shape_of, shape_in};
ghost use Rattle.brs_builtins.specs.Operands as spec;

use brs_heap::{Heap, Plain, Value};
use plain_operations::{Operand, Shape, argue, one_shape, three_shape, two_shape};

/// A value as an operand. A text is lent by the heap. Takes no memory.
pub fn operand_at<'a>(heap: &'a Heap, v: &Value) -> Operand<'a>
    ensures { operand_of result ≡ spec.operand_at heap.now v.now }
{
    match heap.plain(v) {
        Some(Plain::Invalid) => Operand::Invalid,
        Some(Plain::Truth(b)) => Operand::Boolean(b),
        Some(Plain::Small(n)) => Operand::Integer(n),
        Some(Plain::Big(n)) => Operand::LongInteger(n),
        Some(Plain::Function(_)) => Operand::Function,
        Some(Plain::Node(_) | Plain::Port(_) | Plain::Screen) => Operand::Other,
        None => match heap.text(v) {
            Some(text) => Operand::Words(text.as_str()),
            None => Operand::Other,
        },
    }
}

/// The arguments of a function of numbers and texts, by their kinds. Takes no memory.
pub(crate) fn shape_at<'a>(heap: &'a Heap, arguments: &[Value]) -> Shape<'a>
    ensures { shape_of result ≡ shape_in (spec.operands_at heap.now arguments.now) }
{
    match arguments {
        [a] => one_shape(operand_at(heap, a)),
        [a, b] => two_shape(argue(operand_at(heap, a)), argue(operand_at(heap, b))),
        [a, b, c] => three_shape(
            argue(operand_at(heap, a)),
            argue(operand_at(heap, b)),
            argue(operand_at(heap, c)),
        ),
        _ => Shape::Mixed,
    }
}
