//! The text of values with their marks. A row has the marks, the values and the text, with a `.` for each space.
ghost use Rattle.std.specs.Prelude.{◌≡◌, ◌+◌, ◌≤◌};

use crate::values::{marks, seen, text_of, values};
use brs_code::Mark;
use brs_heap::{Heap, Plain, Value};
use chan_values::{ErrorCode, NoMemory, Text};
use printed_text::{Printing, printed_text};
use std::alloc::Global;
use std::test::Fail;

const ROWS: [(&str, &str, &str); 37] = [
    // each kind of value
    ("v", "1", ".1"),
    ("v", "0", ".0"),
    ("v", "-1", "-1"),
    ("v", "5000000000&", ".5000000000"),
    ("v", "-5&", "-5"),
    ("v", "'a text", "a.text"),
    ("v", "'", ""),
    ("v", "'say \"x\"", "say.\"x\""),
    ("v", "true", "true"),
    ("v", "false", "false"),
    ("v", "invalid", "invalid"),
    ("v", "function", "function"),
    ("v", "node", "node.7"),
    ("v", "port", "port.12"),
    ("v", "screen", "screen"),
    ("v", "message", "message"),
    // what arrays and associative arrays unfold to
    ("v", "[", "[]"),
    ("v", "[1 5& 'a true -3", "[1,.5&,.\"a\",.true,.-3]"),
    ("v", "{", "{}"),
    ("v", "{a:1 b:'x", "{a:.1,.b:.\"x\"}"),
    // values side by side
    ("", "", ""),
    ("vv", "1|2", ".1.2"),
    ("v;v", "1|2", ".1.2"),
    ("v;", "'a", "a"),
    (";v", "'a", "a"),
    (";;", "", ""),
    ("vv", "'a|[1", "a[1]"),
    // zones
    (",", "", "................"),
    ("v,v", "'a|'b", "a...............b"),
    ("v,", "'a", "a..............."),
    ("v,,v", "'a|'b", "a...............................b"),
    ("v,v", "'123456789012345|'b", "123456789012345.b"),
    (
        "v,v",
        "'1234567890123456|'b",
        "1234567890123456................b",
    ),
    (
        "v,v",
        "'12345678901234567|'b",
        "12345678901234567...............b",
    ),
    ("v,v", "'äöü|'b", "äöü.............b"),
    ("v;v,v", "1|-2|3", ".1-2.............3"),
    // a comma behind an array
    ("v,v", "[1|2", "[1]..............2"),
];

#[test]
fn values_are_printed_with_their_marks(rt: HostRuntime) -> Result<(), Fail> {
    let alloc = rt.alloc();
    for (row, words, wanted) in ROWS {
        let mut heap = Heap::new(alloc);
        let values = values(alloc, &mut heap, words)?;
        let marks = marks(alloc, row)?;
        let printing = printed_text(alloc, &heap, marks.as_slice(), values.as_slice())?;
        let text = seen(alloc, &printing)?;
        assert_eq!(rt; text.as_str(), wanted);
    }
    Ok(())
}

/// An array that holds the value.
fn wrapped(heap: &mut Heap, v: Value) -> Result<Value, NoMemory>
    ensures { heap.new.shares ≡ heap.old.shares }
{
    let array = heap.make_array()?;
    if heap.holds_array(&array) && heap.set(&array, 0, v).is_err() {
        return Err(NoMemory);
    }
    Ok(array)
}

/// So many arrays in one another.
fn nested(heap: &mut Heap, times: usize) -> Result<Value, NoMemory> {
    let mut v = Value::plain(Plain::Small(1));
    for _round in 0..times {
        v = wrapped(heap, v)?;
    }
    Ok(v)
}

/// So many times 1,024 characters.
fn long_text(alloc: Global, times: usize) -> Result<Text, NoMemory> {
    let mut line = Text::new(alloc);
    for _character in 0..1024 {
        line.push('ä')?;
    }
    let mut text = Text::new(alloc);
    for _line in 0..times {
        text.push_str(line.as_str())?;
    }
    Ok(text)
}

/// The error of these values one after another, `None` where they have a text.
fn error_of(alloc: Global, heap: &Heap, values: &[Value]) -> Result<Option<ErrorCode>, NoMemory> {
    let marks = [Mark::Value, Mark::Value];
    match printed_text(alloc, heap, &marks, values)? {
        Printing::Printed(_) => Ok(None),
        Printing::Raises(error) => Ok(Some(error)),
    }
}

#[test]
fn a_value_that_is_too_deep_has_no_text(rt: HostRuntime) -> Result<(), Fail> {
    let alloc = rt.alloc();
    let mut heap = Heap::new(alloc);
    let deepest = [nested(&mut heap, 64)?];
    assert!(rt; error_of(alloc, &heap, &deepest)? == None);
    let deeper = [nested(&mut heap, 65)?];
    assert!(rt; error_of(alloc, &heap, &deeper)? == Some(ErrorCode::E9));
    Ok(())
}

/// The error of a text of 1,048,576 characters before another text, or before a value that is too deep.
fn error_behind_long(alloc: Global, word: &str, deep: bool) -> Result<Option<ErrorCode>, NoMemory> {
    let mut heap = Heap::new(alloc);
    let text = long_text(alloc, 1024)?;
    let longest = heap.make_text(text)?;
    let other = if deep {
        nested(&mut heap, 65)?
    } else {
        heap.make_text(text_of(alloc, word)?)?
    };
    let values = [longest, other];
    error_of(alloc, &heap, &values)
}

#[test]
fn a_text_has_at_most_1048576_characters(rt: HostRuntime) -> Result<(), Fail> {
    let alloc = rt.alloc();
    assert!(rt; error_behind_long(alloc, "", false)? == None);
    assert!(rt; error_behind_long(alloc, "a", false)? == Some(ErrorCode::E12));
    // what can't be unfolded comes first
    assert!(rt; error_behind_long(alloc, "", true)? == Some(ErrorCode::E9));
    Ok(())
}
