//! The methods of messages.
ghost use Rattle.std.specs.Prelude.{◌≡◌, [], IfOk, option_map};
ghost use Rattle.heap_meaning.specs.Heap.{content_at};
ghost use Rattle.heap_meaning.specs.Reading.{message_in};
ghost use Rattle.object_operations.specs.Applies.{Applies};
ghost use Rattle.object_operations.specs.Messages.{told, message_row, method_of_message};
ghost use Rattle.object_makers.specs.MessageAnswers.{AppliesToMessage};
ghost use Rattle.object_makers.specs.Told.{told_of};

use brs_heap::{Heap, Plain, Value};
use chan_values::{ErrorCode, Message, NoMemory, Text, copy_text};
use object_operations::{Applied, MessageMethod, Receiver, receiver_of, refusal};
use std::alloc::Global;

/// What a message tells.
#[derive(Drop)]
pub(crate) enum Told {
    /// A text, as the id of a field.
    Words(Text),
    /// The number of a node.
    Node(u32),
}

/// What a method reads from a message.
fn tell(alloc: Global, method: MessageMethod, message: &Message) -> Result<Told, NoMemory>
    ensures { IfOk result (λ t. told_of t ≡ told method message.now) }
{
    match method {
        MessageMethod::Field => Ok(Told::Words(copy_text(alloc, &message.field)?)),
        MessageMethod::Id => Ok(Told::Words(copy_text(alloc, &message.id)?)),
        MessageMethod::Node => Ok(Told::Node(message.node)),
    }
}

/// The same of a value, `None` exactly where it is no message.
fn tell_at(
    alloc: Global,
    heap: &Heap,
    method: MessageMethod,
    v: &Value,
) -> Result<Option<Told>, NoMemory>
    ensures { IfOk result (λ t. option_map told_of t ≡ option_map (told method) (message_in (content_at heap.now v.now))) }
{
    match heap.message(v) {
        None => Ok(None),
        Some(message) => Ok(Some(tell(alloc, method, message)?)),
    }
}

/// A method of a message, without arguments.
fn bare_message_method(
    alloc: Global,
    heap: &mut Heap,
    method: MessageMethod,
    message: &Value,
) -> Result<Applied, NoMemory>
    ensures answer { IfOk result (λ r. AppliesToMessage heap.old heap.new message.now [] r (method_of_message method)) }
    ensures shares { heap.new.shares ≡ heap.old.shares }
{
    match tell_at(alloc, heap, method, message)? {
        None => Ok(Applied::Raised(ErrorCode::E4)),
        Some(Told::Words(text)) => Ok(Applied::Value(heap.make_text(text)?)),
        Some(Told::Node(n)) => Ok(Applied::Value(Value::plain(Plain::Node(n)))),
    }
}

/// A method of a message.
fn message_method(
    alloc: Global,
    heap: &mut Heap,
    method: MessageMethod,
    message: &Value,
    arguments: &[Value],
) -> Result<Applied, NoMemory>
    ensures answer { IfOk result (λ r. AppliesToMessage heap.old heap.new message.now arguments.now r (method_of_message method)) }
    ensures shares { heap.new.shares ≡ heap.old.shares }
{
    match arguments {
        [] => bare_message_method(alloc, heap, method, message),
        _ => Ok(Applied::Raised(ErrorCode::E6)),
    }
}

/// A call of a method of messages: what it is called on, and the arguments. E7 on `invalid`, E4 on what is no message,
/// E6 with an argument.
///
/// Source: SceneGraph, "roSGNodeEvent".
pub fn call_message_method(
    alloc: Global,
    heap: &mut Heap,
    method: MessageMethod,
    arguments: &[Value],
) -> Result<Applied, NoMemory>
    ensures answer { IfOk result (λ r. Applies heap.old heap.new arguments.now r (message_row method)) }
    ensures shares { heap.new.shares ≡ heap.old.shares }
{
    let [message, arguments @ ..] = arguments else {
        return Ok(Applied::Raised(ErrorCode::E6));
    };
    match receiver_of(heap, message) {
        Receiver::Message => message_method(alloc, heap, method, message, arguments),
        other => Ok(Applied::Raised(refusal(other, ErrorCode::E4))),
    }
}
