//! What no longer fits: the longest arrays and texts.
ghost use Rattle.std.specs.Prelude.{◌≡◌, ◌+◌, ◌^◌, ◌<◌, ◌≤◌};

use crate::rows::{check_call, text_of, value};
use brs_builtins::{Applied, Operation, apply};
use brs_heap::{Heap, Plain, Value};
use chan_values::{ErrorCode, NoMemory, Text};
use object_operations::ArrayMethod;
use plain_operations::Operator;
use std::alloc::Global;
use std::process::Abort;
use std::test::Fail;

/// An array has at most so many items, and a text so many characters.
const LONGEST: usize = 1 << 20;

fn longest_array(heap: &mut Heap) -> Result<Value, NoMemory>
    ensures { heap.new.shares ≡ heap.old.shares }
{
    let array = heap.make_array()?;
    if heap.holds_array(&array) {
        match heap.set(&array, LONGEST - 1, Value::plain(Plain::Small(7))) {
            Ok(()) => {}
            Err(_) => return Err(NoMemory),
        }
    }
    Ok(array)
}

/// What an operation answers for an object and a value.
fn with(
    rt: &impl Abort,
    alloc: Global,
    heap: &mut Heap,
    operation: Operation,
    object: &Value,
    word: &str,
    wanted: &str,
) -> Result<(), Fail>
    requires { 2 ^ 20 < heap.old.shares }
    ensures { heap.old.shares ≤ heap.new.shares + (2 ^ 20 + 1) }
{
    let arguments = [heap.share(object), value(alloc, heap, word)?];
    check_call(rt, alloc, heap, operation, &arguments, wanted)
}

/// The same for an object, a value and an Integer.
fn with_integer(
    rt: &impl Abort,
    alloc: Global,
    heap: &mut Heap,
    operation: Operation,
    object: &Value,
    word: &str,
    wanted: &str,
) -> Result<(), Fail>
    requires { 2 ^ 20 < heap.old.shares }
    ensures { heap.old.shares ≤ heap.new.shares + (2 ^ 20 + 1) }
{
    let arguments = [
        heap.share(object),
        value(alloc, heap, word)?,
        Value::plain(Plain::Small(1)),
    ];
    check_call(rt, alloc, heap, operation, &arguments, wanted)
}

#[test]
fn the_longest_array_takes_no_item(rt: HostRuntime) -> Result<(), Fail> {
    let alloc = rt.alloc();
    let mut heap = Heap::new(alloc);
    let array = longest_array(&mut heap)?;
    let push = Operation::ArrayMethod(ArrayMethod::Push);
    let unshift = Operation::ArrayMethod(ArrayMethod::Unshift);
    let append = Operation::ArrayMethod(ArrayMethod::Append);
    let delete = Operation::ArrayMethod(ArrayMethod::Delete);
    let write = Operation::WriteIndex;
    with(&rt, alloc, &mut heap, push, &array, "1", "E12")?;
    with(&rt, alloc, &mut heap, unshift, &array, "1", "E12")?;
    with(&rt, alloc, &mut heap, append, &array, "[]", "invalid")?;
    with(&rt, alloc, &mut heap, append, &array, "[1]", "E12")?;
    with(&rt, alloc, &mut heap, append, &array, "1", "E2")?;
    with_integer(&rt, alloc, &mut heap, write, &array, "1048576", "E12")?;
    with_integer(&rt, alloc, &mut heap, write, &array, "-1", "E2")?;
    with(&rt, alloc, &mut heap, delete, &array, "1048575", "true")?;
    with(&rt, alloc, &mut heap, append, &array, "[1 2]", "E12")?;
    with(&rt, alloc, &mut heap, append, &array, "[1]", "invalid")?;
    with(&rt, alloc, &mut heap, push, &array, "1", "E12")
}

/// A text of so many characters, twice as many at each round.
fn doubled(alloc: Global, rounds: u32) -> Result<Text, NoMemory> {
    let mut text = text_of(alloc, "é")?;
    for _ in 0..rounds {
        let once = text_of(alloc, text.as_str())?;
        text.push_str(once.as_str())?;
    }
    Ok(text)
}

#[test]
fn the_longest_text_takes_no_character(rt: HostRuntime) -> Result<(), Fail> {
    let alloc = rt.alloc();
    let add = Operation::Operator(Operator::Add);
    for (rounds, tail, refused) in [(19, "'a", false), (20, "'", false), (20, "'a", true)] {
        let mut heap = Heap::new(alloc);
        let long = heap.make_text(doubled(alloc, rounds)?)?;
        let tail = value(alloc, &mut heap, tail)?;
        let answer = apply(alloc, &mut heap, add, &[long, tail])?;
        assert_eq!(rt; matches!(answer, Applied::Raised(ErrorCode::E12)), refused);
    }
    Ok(())
}
