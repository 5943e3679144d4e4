//! `Print` in a call: its text, its operands and the place behind it.
ghost use Rattle.std.specs.Prelude.{◌≡◌, ◌<◌};

use crate::values::{marks, seen, value};
use brs_code::{Function, ValueType};
use brs_heap::{Heap, Plain, Value};
use chan_values::NoMemory;
use frame_stack::{CallHead, CallKind, FrameStack, Landing};
use print_instruction::{Printing, print};
use sqlite_items::Items;
use std::alloc::{AllocError, Global};
use std::test::Fail;

/// A function with these marks.
fn function(alloc: Global, row: &str) -> Result<Function, AllocError> {
    let marks = Items::from_slice(alloc, marks(alloc, row)?.as_slice())?;
    Ok(Function {
        path: 0,
        line: 1,
        first: 0,
        parameters: Items::new(alloc),
        needed: 0,
        value: ValueType::Any,
        names: Items::new(alloc),
        texts: Items::new(alloc),
        marks,
        start: 0,
        code: Items::new(alloc),
    })
}

/// A call that is at place 4, with the values of these words as its operands.
fn enter(alloc: Global, heap: &mut Heap, words: &str) -> Result<FrameStack, NoMemory>
    ensures { heap.new.shares ≡ heap.old.shares }
{
    let mut stack = FrameStack::new(alloc);
    let head = CallHead {
        kind: CallKind::OnTop,
        function: 0,
        path: 0,
        home: 0,
        place: 4,
        line: 0,
        landing: Landing::Nowhere,
    };
    stack.enter(head, Value::plain(Plain::Invalid), 0, 0)?;
    for word in words.split('|') {
        let v = value(alloc, heap, word)?;
        if stack.call_count() > 0 {
            stack.push(v)?;
        }
    }
    Ok(stack)
}

/// Prints so many operands with so many marks from the first one on.
fn print_in(
    alloc: Global,
    heap: &mut Heap,
    stack: &mut FrameStack,
    function: &Function,
    marks: (usize, usize),
    values: usize,
) -> Result<Printing, NoMemory> {
    let (first, count) = marks;
    let there = function.marks.len();
    if first > there || count > there - first || values > stack.operand_count() {
        return Err(NoMemory);
    }
    if stack.call_count() == 0 || stack.head().place > 100 {
        return Err(NoMemory);
    }
    print(alloc, heap, stack, function, first, count, values)
}

#[test]
fn the_last_operands_are_printed_and_dropped(rt: HostRuntime) -> Result<(), Fail> {
    let alloc = rt.alloc();
    let mut heap = Heap::new(alloc);
    let function = function(alloc, ",vv;v")?;
    let mut stack = enter(alloc, &mut heap, "'stays|1|[2")?;
    let printing = print_in(alloc, &mut heap, &mut stack, &function, (2, 3), 2)?;
    let text = seen(alloc, &printing)?;
    assert_eq!(rt; text.as_str(), ".1[2]");
    assert_eq!(rt; stack.operand_count(), 1);
    assert!(rt; stack.call_count() == 1 && place(&stack) == 5);
    Ok(())
}

fn place(stack: &FrameStack) -> usize {
    if stack.call_count() == 0 {
        return 0;
    }
    stack.head().place
}

/// An array that holds itself.
fn holds_itself(heap: &mut Heap) -> Result<Value, NoMemory>
    requires { 0 < heap.old.shares }
{
    let array = heap.make_array()?;
    let itself = heap.share(&array);
    if heap.holds_array(&array) && heap.set(&array, 0, itself).is_err() {
        return Err(NoMemory);
    }
    Ok(array)
}

#[test]
fn an_error_leaves_the_operands(rt: HostRuntime) -> Result<(), Fail> {
    let alloc = rt.alloc();
    let mut heap = Heap::new(alloc);
    let function = function(alloc, "vv")?;
    let mut stack = enter(alloc, &mut heap, "1")?;
    let array = holds_itself(&mut heap)?;
    if stack.call_count() > 0 {
        stack.push(array)?;
    }
    let printing = print_in(alloc, &mut heap, &mut stack, &function, (0, 2), 2)?;
    let text = seen(alloc, &printing)?;
    assert_eq!(rt; text.as_str(), "E9");
    assert_eq!(rt; stack.operand_count(), 2);
    assert_eq!(rt; place(&stack), 4);
    Ok(())
}
