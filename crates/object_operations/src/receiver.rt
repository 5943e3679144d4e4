//! What a value is, as far as its methods and members go.
ghost use Rattle.std.specs.Prelude.{◌≡◌};
ghost use Rattle.heap_meaning.specs.Heap.{content_at};
ghost use Rattle.heap_meaning.specs.Reading.{plain_of};
ghost use Rattle.object_operations.specs.Receivers.{receiver_in, refusal_of};

use brs_heap::{Heap, Plain, Shape, Value};
use chan_values::ErrorCode;

/// What a method is called on, or a member or an index belongs to.
#[derive(Clone, Copy, Debug, PartialEq, Eq)]
pub enum Receiver {
    Invalid,
    Array,
    Pairs,
    Message,
    /// Any other kind of value.
    Other,
}

/// What a value is. Takes no memory.
pub fn receiver_of(heap: &Heap, v: &Value) -> Receiver
    ensures { result ≡ receiver_in (plain_of v.now) (content_at heap.now v.now) }
{
    match heap.plain(v) {
        Some(Plain::Invalid) => Receiver::Invalid,
        Some(_) => Receiver::Other,
        None => match heap.shape(v) {
            Shape::Array => Receiver::Array,
            Shape::Pairs => Receiver::Pairs,
            Shape::Message => Receiver::Message,
            Shape::Words | Shape::Plain => Receiver::Other,
        },
    }
}

/// The error of what isn't the kind that is wanted: E7 on `invalid`.
pub fn refusal(receiver: Receiver, other: ErrorCode) -> ErrorCode
    ensures { result ≡ refusal_of receiver other }
{
    match receiver {
        Receiver::Invalid => ErrorCode::E7,
        _ => other,
    }
}
