//! `getData()` of a message.
ghost use Rattle.std.specs.Prelude.{◌≡◌, [], IfOk, option_map};
ghost use Rattle.heap_meaning.specs.Heap.{content_at};
ghost use Rattle.heap_meaning.specs.Reading.{message_in};
ghost use Rattle.object_operations.specs.Applies.{Applies};
ghost use Rattle.object_operations.specs.Receivers.{on_message};
ghost use Rattle.object_makers.specs.MessageAnswers.{AppliesToMessage};
ghost use Rattle.object_makers.specs.MessageData.{data_row};

use brs_copy::copy_in;
use brs_heap::{Heap, Value};
use chan_values::{ErrorCode, NoMemory, Portable, copy_portable};
use object_operations::{Applied, Receiver, receiver_of, refusal};
use std::alloc::Global;

/// A copy of what a message carries, `None` exactly where the value is no message.
fn payload_at(alloc: Global, heap: &Heap, v: &Value) -> Result<Option<Portable>, NoMemory>
    ensures { IfOk result (λ p. p ≡ option_map (λ m. m.payload) (message_in (content_at heap.now v.now))) }
{
    match heap.message(v) {
        None => Ok(None),
        Some(message) => Ok(Some(copy_portable(alloc, &message.payload)?)),
    }
}

/// What a message carries, laid down anew.
fn lay_data(alloc: Global, heap: &mut Heap, message: &Value) -> Result<Applied, NoMemory>
    ensures answer { IfOk result (λ r. AppliesToMessage heap.old heap.new message.now [] r data_row) }
    ensures shares { heap.new.shares ≡ heap.old.shares }
{
    match payload_at(alloc, heap, message)? {
        None => Ok(Applied::Raised(ErrorCode::E4)),
        Some(payload) => Ok(Applied::Value(copy_in(alloc, heap, &payload)?)),
    }
}

/// The method of a message.
fn message_data(
    alloc: Global,
    heap: &mut Heap,
    message: &Value,
    arguments: &[Value],
) -> Result<Applied, NoMemory>
    ensures answer { IfOk result (λ r. AppliesToMessage heap.old heap.new message.now arguments.now r data_row) }
    ensures shares { heap.new.shares ≡ heap.old.shares }
{
    match arguments {
        [] => lay_data(alloc, heap, message),
        _ => Ok(Applied::Raised(ErrorCode::E6)),
    }
}

/// A call of `getData()`: what it is called on, and the arguments. Each call lays what the message carries down anew. E7
/// on `invalid`, E4 on what is no message, E6 with an argument.
///
/// Source: SceneGraph, "roSGNodeEvent": getData.
pub fn call_data(alloc: Global, heap: &mut Heap, arguments: &[Value]) -> Result<Applied, NoMemory>
    ensures answer { IfOk result (λ r. Applies heap.old heap.new arguments.now r (on_message data_row)) }
    ensures shares { heap.new.shares ≡ heap.old.shares }
{
    let [message, arguments @ ..] = arguments else {
        return Ok(Applied::Raised(ErrorCode::E6));
    };
    match receiver_of(heap, message) {
        Receiver::Message => message_data(alloc, heap, message, arguments),
        other => Ok(Applied::Raised(refusal(other, ErrorCode::E4))),
    }
}
