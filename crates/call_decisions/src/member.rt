//! What the call of a member calls, by the value and the name.
ghost use Rattle.std.specs.Prelude.{◌≡◌, ◌↔◌, IsTrue, option_copied};
ghost use Rattle.chan_values.specs.Folded.{folded};
ghost use Rattle.heap_meaning.specs.Heap.{content_at};
ghost use Rattle.heap_meaning.specs.Reading.{value_in};
ghost use Rattle.call_decisions.specs.MemberCalls as spec;
ghost use Rattle.call_decisions.specs.MemberRows.{IsMemberRow};

use crate::member_call::MemberCall;
use brs_builtins::{Operation, Receiver, method_named, receiver_of};
use brs_heap::{Heap, Plain, Value};
use chan_values::ErrorCode;

/// Whether folding a name changes nothing.
fn is_folded(name: &[u8]) -> bool
    ensures { IsTrue result ↔ (folded name.now ≡ name.now) }
{
    name.iter().all(|b| !b.is_ascii_uppercase())
}

/// The value of an associative array at a key with this very spelling. Its keys are folded, so another spelling is none of them.
fn held_at<'a>(heap: &'a Heap, v: &Value, name: &[u8]) -> Option<&'a Value>
    ensures { option_copied result ≡ value_in (content_at heap.now v.now) name.now }
{
    // The call tells that keys are folded and in order.
    let _first = heap.key_at(v, 0);
    if is_folded(name) {
        heap.get_key(v, name)
    } else {
        None
    }
}

/// A method, or the error where there is none.
fn method_or(error: ErrorCode, method: Option<Operation>) -> MemberCall
    ensures { result ≡ spec.method_or error method }
{
    match method {
        Some(operation) => MemberCall::Method(operation),
        None => MemberCall::Refused(error),
    }
}

/// By the plain value at the key, or none where another value stands there.
fn called_as_held(held: Option<Plain>, method: Option<Operation>) -> MemberCall
    ensures { result ≡ spec.held_called held method }
{
    match held {
        Some(Plain::Function(n)) => MemberCall::Function(n),
        _ => method_or(ErrorCode::E5, method),
    }
}

fn called_at_key(heap: &Heap, pairs: &Value, name: &[u8]) -> MemberCall
    ensures { result ≡ spec.key_called (value_in (content_at heap.now pairs.now) name.now) name.now }
{
    let method = method_named(Receiver::Pairs, name);
    match held_at(heap, pairs, name) {
        Some(held) => called_as_held(heap.plain(held), method),
        None => method_or(ErrorCode::E4, method),
    }
}

fn called_on_plain(plain: Plain, name: &[u8]) -> MemberCall
    ensures { result ≡ spec.plain_called plain name.now }
{
    match plain {
        Plain::Invalid => MemberCall::Refused(ErrorCode::E7),
        Plain::Node(n) => MemberCall::Node(n),
        Plain::Port(n) => MemberCall::Port(n),
        Plain::Screen => MemberCall::Screen,
        _ => method_or(ErrorCode::E4, method_named(Receiver::Other, name)),
    }
}

fn decide(heap: &Heap, v: &Value, name: &[u8]) -> MemberCall
    ensures { result ≡ spec.member_called heap.now v.now name.now }
{
    match heap.plain(v) {
        Some(plain) => called_on_plain(plain, name),
        None => match receiver_of(heap, v) {
            Receiver::Pairs => called_at_key(heap, v, name),
            other => method_or(ErrorCode::E4, method_named(other, name)),
        },
    }
}

/// What a call of the member of this folded name of a value calls. E7 on `invalid`; E5 where something else than a function stands at the key
/// of an associative array, and that has no such method; else E4 where there is no such method. Takes no memory.
///
/// Source: BrightScript Language Reference, "BrightScript Interfaces".
pub fn member_called(heap: &Heap, v: &Value, name: &[u8]) -> MemberCall
    ensures decided { result ≡ spec.member_called heap.now v.now name.now }
    ensures row { IsMemberRow heap.now v.now name.now result }
{
    decide(heap, v, name)
}
