//! Both bounds, values that hold themselves, what has no form outside, and the way out, in and out
//! again. Where memory is wanting, a helper leaves something out, and the answer is another.
ghost use Rattle.std.specs.Prelude.{◌≡◌, ◌+◌, ◌^◌, ◌<◌, ◌≤◌};

use brs_copy::{CopyFault, copy_in, copy_out};
use brs_heap::{Heap, Plain, Value};
use chan_values::{Measure, Message, NoMemory, Portable, Text, measure, same, text_of_value};
use std::alloc::Global;
use std::test::Fail;

fn text_of(alloc: Global, t: &str) -> Text {
    let mut text = Text::new(alloc);
    let _ = text.push_str(t);
    text
}

fn made(value: Result<Value, NoMemory>) -> Value {
    match value {
        Ok(v) => v,
        Err(NoMemory) => Value::plain(Plain::Invalid),
    }
}

/// Puts the item at a place of an array.
fn put(heap: &mut Heap, array: &Value, at: usize, item: Value)
    ensures { heap.new.shares ≡ heap.old.shares }
{
    if heap.holds_array(array) {
        let _ = heap.set(array, at, item);
    }
}

/// Puts the item at a key of an associative array.
fn put_key(heap: &mut Heap, map: &Value, key: &str, item: Value) {
    if heap.holds_pairs(map) {
        let _ = heap.set_key(map, key.as_bytes(), item);
    }
}

/// An array that holds the value once or twice.
fn wrapped(heap: &mut Heap, v: Value, twice: bool) -> Value
    requires { 0 < heap.old.shares }
    ensures { heap.old.shares ≤ heap.new.shares + 1 }
{
    let array = made(heap.make_array());
    if twice {
        let again = heap.share(&v);
        put(heap, &array, 1, again);
    }
    put(heap, &array, 0, v);
    array
}

/// So many arrays round the value, each of which holds the one before once or twice.
fn nested(heap: &mut Heap, inner: Value, times: usize, twice: bool) -> Value
    requires { times ≤ heap.old.shares }
    ensures { heap.old.shares ≤ heap.new.shares + times }
{
    let mut v = inner;
    for round in 0..times {
        v = wrapped(heap, v, twice);
    }
    v
}

/// How the copy of a value measures, or why there is none.
fn answer(alloc: Global, heap: &Heap, v: &Value) -> Result<Measure, CopyFault> {
    match copy_out(alloc, heap, v) {
        Ok(copy) => Ok(measure(&copy)),
        Err(fault) => Err(fault),
    }
}

/// On so many arrays in one another.
fn answer_on_chain(alloc: Global, times: usize) -> Result<Measure, CopyFault>
    requires { times < 2 ^ 63 }
{
    let mut heap = Heap::new(alloc);
    let v = nested(&mut heap, Value::plain(Plain::Small(7)), times, false);
    answer(alloc, &heap, &v)
}

/// On an array of so many items and one.
fn answer_on_items(alloc: Global, last: usize) -> Result<Measure, CopyFault> {
    let mut heap = Heap::new(alloc);
    let array = made(heap.make_array());
    put(&mut heap, &array, last, Value::plain(Plain::Truth(true)));
    answer(alloc, &heap, &array)
}

/// On an array that holds itself at places 0 to `last`.
fn answer_on_itself(alloc: Global, last: usize) -> Result<Measure, CopyFault>
    requires { last < 2 ^ 62 }
{
    let mut heap = Heap::new(alloc);
    let array = made(heap.make_array());
    for at in 0..last + 1 {
        let itself = heap.share(&array);
        put(&mut heap, &array, at, itself);
    }
    answer(alloc, &heap, &array)
}

/// On an array of 40 arrays in one another, each twice in the next, and of so many in a chain.
fn answer_on_doubled(alloc: Global, chain: usize) -> Result<Measure, CopyFault>
    requires { chain < 2 ^ 62 }
{
    let mut heap = Heap::new(alloc);
    let doubled = nested(&mut heap, Value::plain(Plain::Small(1)), 40, true);
    let chain = nested(&mut heap, Value::plain(Plain::Invalid), chain, false);
    let both = made(heap.make_array());
    put(&mut heap, &both, 0, doubled);
    put(&mut heap, &both, 1, chain);
    answer(alloc, &heap, &both)
}

fn measures(depth: u32, parts: u32) -> Result<Measure, CopyFault> {
    Ok(Measure { depth, parts })
}

#[test]
fn each_bound_is_met_exactly(rt: HostRuntime) -> Result<(), Fail> {
    let alloc = rt.alloc();
    assert_eq!(rt; answer_on_chain(alloc, 64), measures(64, 65));
    assert_eq!(rt; answer_on_chain(alloc, 65), Err(CopyFault::TooDeep));
    assert_eq!(rt; answer_on_items(alloc, 65_534), measures(1, 65_536));
    assert_eq!(rt; answer_on_items(alloc, 65_535), Err(CopyFault::TooLarge));
    assert_eq!(rt; answer_on_itself(alloc, 0), Err(CopyFault::TooDeep));
    assert_eq!(rt; answer_on_itself(alloc, 1), Err(CopyFault::TooDeep));
    assert_eq!(rt; answer_on_doubled(alloc, 63), Err(CopyFault::TooLarge));
    assert_eq!(rt; answer_on_doubled(alloc, 64), Err(CopyFault::TooDeep));
    Ok(())
}

/// An array of what has no form outside.
fn without_form(alloc: Global, heap: &mut Heap) -> Value {
    let message = Message {
        node: 7,
        id: text_of(alloc, "id"),
        field: text_of(alloc, "field"),
        payload: Portable::Truth(true),
    };
    let message = made(heap.make_message(message));
    let array = made(heap.make_array());
    put(heap, &array, 0, Value::plain(Plain::Function(3)));
    put(heap, &array, 1, message);
    put(heap, &array, 2, Value::plain(Plain::Screen));
    array
}

/// An associative array of a value of each kind.
fn one_of_each(alloc: Global, heap: &mut Heap) -> Value {
    let array = without_form(alloc, heap);
    let words = made(heap.make_text(text_of(alloc, "words")));
    let map = made(heap.make_pairs());
    for (key, plain) in [
        ("NODE", Plain::Node(2)),
        ("Port", Plain::Port(5)),
        ("truth", Plain::Truth(true)),
        ("Small", Plain::Small(-9)),
        ("big", Plain::Big(9)),
        ("none", Plain::Invalid),
    ] {
        put_key(heap, &map, key, Value::plain(plain));
    }
    put_key(heap, &map, "Words", words);
    put_key(heap, &map, "array", array);
    map
}

/// The copy of a value, `invalid` where there is none.
fn copy_of(alloc: Global, heap: &Heap, v: &Value) -> Portable {
    match copy_out(alloc, heap, v) {
        Ok(copy) => copy,
        Err(_) => Portable::Nothing,
    }
}

/// The copy of a value, laid down in another heap and copied from there.
fn copy_of_laid(alloc: Global, copy: &Portable) -> Portable {
    let mut heap = Heap::new(alloc);
    let laid = made(copy_in(alloc, &mut heap, copy));
    copy_of(alloc, &heap, &laid)
}

#[test]
fn a_value_is_the_same_out_and_in_and_out_again(rt: HostRuntime) -> Result<(), Fail> {
    let mut heap = Heap::new(rt.alloc());
    let map = one_of_each(rt.alloc(), &mut heap);
    let copy = copy_of(rt.alloc(), &heap, &map);
    let again = copy_of_laid(rt.alloc(), &copy);
    assert!(rt; same(&copy, &again));
    let text = text_of_value(rt.alloc(), &again)?;
    assert_eq!(rt;
        text.as_str(),
        "{array: [invalid, invalid, invalid], big: 9&, node: node 2, none: invalid, port: port 5, small: -9, truth: true, words: \"words\"}"
    );
    Ok(())
}
