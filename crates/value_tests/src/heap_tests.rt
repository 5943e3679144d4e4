//! The happy paths of each call, with ample memory, and the bounds of arrays and keys.
ghost use Rattle.std.specs.Prelude.{◌≡◌};

use brs_heap::{Heap, Plain, SetFault, Shape, Value};
use chan_values::{Message, Portable, Text};
use std::alloc::Global;
use std::test::Fail;

fn text_of(alloc: Global, t: &str) -> Text {
    let mut text = Text::new(alloc);
    let _ = text.push_str(t);
    text
}

fn number(n: i32) -> Value {
    Value::plain(Plain::Small(n))
}

/// The number that a value is, -1 where it is none.
fn number_of(heap: &Heap, v: Option<&Value>) -> i32 {
    match v {
        Some(v) => match heap.plain(v) {
            Some(Plain::Small(n)) => n,
            _ => -1,
        },
        None => -1,
    }
}

/// What a write answers: 0 where it was made, 1 for `TooLong`, 2 for want of memory, 3 where it isn't allowed.
fn answer_of(answer: Result<(), SetFault>) -> u8 {
    match answer {
        Ok(()) => 0,
        Err(SetFault::TooLong(_item)) => 1,
        Err(SetFault::NoMemory(_item)) => 2,
    }
}

fn put(heap: &mut Heap, v: &Value, at: usize, n: i32) -> u8
    ensures { heap.new.shares ≡ heap.old.shares }
{
    if heap.holds_array(v) {
        return answer_of(heap.set(v, at, number(n)));
    }
    3
}

fn insert(heap: &mut Heap, v: &Value, at: usize, n: i32) -> u8 {
    if heap.holds_array(v) && at <= heap.length(v) {
        return answer_of(heap.insert(v, at, number(n)));
    }
    3
}

fn put_key(heap: &mut Heap, v: &Value, key: &str, n: i32) -> u8
    ensures { heap.new.shares ≡ heap.old.shares }
{
    if heap.holds_pairs(v) {
        return answer_of(heap.set_key(v, key.as_bytes(), number(n)));
    }
    3
}

#[test]
fn items_are_set_inserted_and_taken(rt: HostRuntime) -> Result<(), Fail> {
    let mut heap = Heap::new(rt.alloc());
    let array = heap.make_array()?;
    assert!(rt; heap.shape(&array) == Shape::Array);
    assert_eq!(rt; put(&mut heap, &array, 2, 30), 0);
    assert_eq!(rt; heap.length(&array), 3);
    assert_eq!(rt; put(&mut heap, &array, 0, 10), 0);
    assert_eq!(rt; insert(&mut heap, &array, 1, 15), 0);
    for (at, n) in [(0, 10), (1, 15), (2, -1), (3, 30), (4, -1)] {
        assert_eq!(rt; number_of(&heap, heap.get(&array, at)), n);
    }
    let taken = heap.take_item(&array, 2);
    assert!(rt; taken.is_some());
    assert_eq!(rt; number_of(&heap, heap.get(&array, 2)), 30);
    assert!(rt; heap.take_item(&array, 3).is_none());
    assert_eq!(rt; heap.length(&array), 3);
    heap.release(array);
    Ok(())
}

#[test]
fn an_array_ends_at_1_048_576_items(rt: HostRuntime) -> Result<(), Fail> {
    let mut heap = Heap::new(rt.alloc());
    let array = heap.make_array()?;
    assert_eq!(rt; put(&mut heap, &array, 1_048_576, 1), 1);
    assert_eq!(rt; heap.length(&array), 0);
    assert_eq!(rt; put(&mut heap, &array, 1_048_575, 1), 0);
    assert_eq!(rt; insert(&mut heap, &array, 5, 2), 1);
    assert_eq!(rt; heap.length(&array), 1_048_576);
    Ok(())
}

#[test]
fn keys_have_no_case_and_ascend(rt: HostRuntime) -> Result<(), Fail> {
    let mut heap = Heap::new(rt.alloc());
    let pairs = heap.make_pairs()?;
    assert!(rt; heap.shape(&pairs) == Shape::Pairs);
    for (key, n) in [
        ("Mid", 1),
        ("alpha", 2),
        ("ZED", 3),
        ("mID", 4),
        ("", 5),
        ("ALPHAS", 6),
    ] {
        assert_eq!(rt; put_key(&mut heap, &pairs, key, n), 0);
    }
    assert_eq!(rt; heap.length(&pairs), 5);
    for (at, key) in [(0, ""), (1, "alpha"), (2, "alphas"), (3, "mid"), (4, "zed")] {
        assert!(rt;
            heap.key_at(&pairs, at)
                .is_some_and(|text| text.as_str() == key)
        );
    }
    assert!(rt; heap.key_at(&pairs, 5).is_none());
    for (key, n) in [
        ("MID", 4),
        ("Alpha", 2),
        ("zed", 3),
        ("alph", -1),
        ("zeds", -1),
    ] {
        assert_eq!(rt; number_of(&heap, heap.get_key(&pairs, key.as_bytes())), n);
    }
    let taken = heap.take_key(&pairs, b"MiD");
    assert_eq!(rt; number_of(&heap, taken.as_ref()), 4);
    assert!(rt; heap.take_key(&pairs, b"mid").is_none());
    assert_eq!(rt; heap.length(&pairs), 4);
    Ok(())
}

#[test]
fn texts_and_messages_are_read_back(rt: HostRuntime) -> Result<(), Fail> {
    let mut heap = Heap::new(rt.alloc());
    let text = heap.make_text(text_of(rt.alloc(), "words"))?;
    assert!(rt; heap.shape(&text) == Shape::Words);
    assert!(rt;
        heap.text(&text)
            .is_some_and(|text| text.as_str() == "words")
    );
    let message = Message {
        node: 7,
        id: text_of(rt.alloc(), "id"),
        field: text_of(rt.alloc(), "field"),
        payload: Portable::Truth(true),
    };
    let message = heap.make_message(message)?;
    assert!(rt; heap.shape(&message) == Shape::Message);
    assert!(rt;
        heap.message(&message)
            .is_some_and(|message| message.node == 7)
    );
    assert!(rt; heap.plain(&message).is_none());
    assert!(rt; heap.plain(&number(3)) == Some(Plain::Small(3)));
    assert!(rt; heap.shape(&number(3)) == Shape::Plain);
    Ok(())
}

#[test]
fn what_is_shared_is_the_same_value(rt: HostRuntime) -> Result<(), Fail> {
    let mut heap = Heap::new(rt.alloc());
    let array = heap.make_array()?;
    let pairs = heap.make_pairs()?;
    assert_eq!(rt; put(&mut heap, &array, 0, 5), 0);
    assert_eq!(rt; put_key(&mut heap, &pairs, "k", 6), 0);
    let again = heap.share(&array);
    assert_eq!(rt; number_of(&heap, heap.get(&again, 0)), 5);
    let item = heap.share_item(&array, 0);
    assert_eq!(rt; number_of(&heap, item.as_ref()), 5);
    assert!(rt; heap.share_item(&array, 1).is_none());
    let value = heap.share_key(&pairs, b"K");
    assert_eq!(rt; number_of(&heap, value.as_ref()), 6);
    assert!(rt; heap.share_key(&pairs, b"l").is_none());
    Ok(())
}
