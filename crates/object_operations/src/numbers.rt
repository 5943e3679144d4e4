//! Numbers as places and as numbers of items.
ghost use Rattle.std.specs.Prelude.{◌≡◌, ◌-◌, ◌^◌, min, pos};
ghost use Rattle.heap_meaning.specs.Values.{Direct};
ghost use Rattle.heap_meaning.specs.declared.plain.Plain.TheVariants.{Small};
ghost use Rattle.heap_meaning.specs.Reading.{plain_of};
ghost use Rattle.object_operations.specs.Numbers.{number_of, place_at};

use brs_heap::{Heap, Plain, Value};

/// The number that a value is, of either width. Takes no memory.
pub fn number(heap: &Heap, v: &Value) -> Option<i64>
    ensures { result ≡ number_of (plain_of v.now) }
{
    match heap.plain(v) {
        Some(Plain::Small(n)) => Some(i64::from(n)),
        Some(Plain::Big(n)) => Some(n),
        _ => None,
    }
}

/// A number as a place, which is none below 0.
pub fn place(n: i64) -> Option<usize>
    ensures { result ≡ place_at n }
{
    if n < 0 { None } else { Some(n as usize) }
}

/// A number of items as an Integer.
pub fn count_value(n: usize) -> Value
    ensures { result ≡ Direct (Small (pos (min n (2 ^ 31 - 1)))) }
{
    Value::plain(Plain::Small(n.min(0x7fff_ffff) as i32))
}
