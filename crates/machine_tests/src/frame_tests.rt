//! The calls in progress: operands, slots, arguments that are moved, and calls that end.
use brs_heap::{Heap, Plain, Value};
use chan_values::Text;
use frame_stack::{CallHead, CallKind, Each, FrameStack, KeyList, Landing, MAX_CALLS, Operand};
use std::alloc::Global;
use std::test::Fail;

fn number(n: i32) -> Value {
    Value::plain(Plain::Small(n))
}

/// The number that a value is, -1 where it is none.
fn number_of(heap: &Heap, v: &Value) -> i32 {
    match heap.plain(v) {
        Some(Plain::Small(n)) => n,
        _ => -1,
    }
}

fn number_in(heap: &Heap, v: Option<&Value>) -> i32 {
    match v {
        Some(v) => number_of(heap, v),
        None => -1,
    }
}

fn head(function: usize) -> CallHead {
    CallHead {
        kind: CallKind::Inner,
        function,
        path: 0,
        home: 0,
        place: 0,
        line: 0,
        landing: Landing::Operands,
    }
}

/// Begins a call with an `m` of its own number.
fn enter(stack: &mut FrameStack, function: usize, m: i32, slots: usize, arguments: usize) -> bool {
    if stack.operand_count() < arguments {
        return false;
    }
    stack
        .enter(head(function), number(m), slots, arguments)
        .is_ok()
}

fn push(stack: &mut FrameStack, n: i32) -> bool {
    if stack.call_count() == 0 {
        return false;
    }
    stack.push(number(n)).is_ok()
}

fn push_each(stack: &mut FrameStack, each: Each) -> bool {
    if stack.call_count() == 0 {
        return false;
    }
    stack.push_each(each).is_ok()
}

/// The number that an operand is, -1 where it is another value, -2 for items, -3 for keys.
fn number_of_operand(heap: &Heap, operand: &Operand) -> i32 {
    match operand {
        Operand::Value(v) => number_of(heap, v),
        Operand::Each(Each::Items(_, _)) => -2,
        Operand::Each(Each::Keys(_)) => -3,
    }
}

/// Takes the last operand out, -4 where there is none.
fn pop(heap: &Heap, stack: &mut FrameStack) -> i32 {
    if stack.operand_count() == 0 {
        return -4;
    }
    number_of_operand(heap, &stack.pop())
}

fn slot(heap: &Heap, stack: &FrameStack, n: usize) -> i32 {
    if n >= stack.slot_count() {
        return -4;
    }
    number_in(heap, stack.slot(n))
}

/// Sets a slot, and answers what it had.
fn set_slot(heap: &Heap, stack: &mut FrameStack, n: usize, v: i32) -> i32 {
    if n >= stack.slot_count() {
        return -4;
    }
    number_in(heap, stack.set_slot(n, number(v)).as_ref())
}

fn pop_slot(heap: &Heap, stack: &mut FrameStack) -> i32 {
    if stack.slot_count() == 0 {
        return -4;
    }
    number_in(heap, stack.pop_slot().as_ref())
}

/// The function of the innermost call, 0 without one.
fn function(stack: &FrameStack) -> usize {
    if stack.call_count() == 0 {
        return 0;
    }
    stack.head().function
}

fn place(stack: &FrameStack) -> usize {
    if stack.call_count() == 0 {
        return 0;
    }
    stack.head().place
}

fn m(heap: &Heap, stack: &FrameStack) -> i32 {
    if stack.call_count() == 0 {
        return -4;
    }
    number_of(heap, stack.m())
}

/// Takes the last operand of the call below out, -4 where it may not be taken.
fn pop_below(heap: &Heap, stack: &mut FrameStack) -> i32 {
    if stack.operand_count() > 0 || stack.operand_count_below() == 0 {
        return -4;
    }
    number_of_operand(heap, &stack.pop_below())
}

/// Ends the innermost call, and answers its `m`, -4 where it may not end.
fn leave(heap: &Heap, stack: &mut FrameStack) -> i32 {
    if stack.call_count() == 0 || stack.operand_count() > 0 || stack.slot_count() > 0 {
        return -4;
    }
    number_of(heap, &stack.leave())
}

fn set_place(stack: &mut FrameStack, place: usize) {
    if stack.call_count() > 0 {
        let head = stack.head();
        stack.set_head(CallHead { place, ..head });
    }
}

fn replace_m(heap: &Heap, stack: &mut FrameStack, n: i32) -> i32 {
    if stack.call_count() == 0 {
        return -4;
    }
    number_of(heap, &stack.replace_m(number(n)))
}

#[test]
fn operands_are_taken_last_first(rt: HostRuntime) -> Result<(), Fail> {
    let heap = Heap::new(rt.alloc());
    let mut stack = FrameStack::new(rt.alloc());
    assert_eq!(rt; stack.call_count(), 0);
    assert!(rt; enter(&mut stack, 7, 70, 0, 0));
    for n in [1, 2, 3] {
        assert!(rt; push(&mut stack, n));
    }
    assert_eq!(rt; stack.operand_count(), 3);
    for n in [3, 2, 1, -4] {
        assert_eq!(rt; pop(&heap, &mut stack), n);
    }
    assert_eq!(rt; function(&stack), 7);
    assert_eq!(rt; m(&heap, &stack), 70);
    Ok(())
}

#[test]
fn the_last_operands_are_a_slice(rt: HostRuntime) -> Result<(), Fail> {
    let heap = Heap::new(rt.alloc());
    let mut stack = FrameStack::new(rt.alloc());
    assert!(rt; enter(&mut stack, 7, 70, 0, 0));
    assert!(rt; push(&mut stack, 1));
    assert!(rt; push(&mut stack, 2));
    assert!(rt; push_each(&mut stack, Each::Items(number(9), 0)));
    assert!(rt; push(&mut stack, 3));
    if stack.operand_count() >= 3 {
        let [first, second, third] = stack.last(3) else {
            return Err("not three operands")?;
        };
        assert_eq!(rt; number_of(&heap, first), 2);
        assert_eq!(rt; number_of(&heap, second), -1);
        assert_eq!(rt; number_of(&heap, third), 3);
    }
    for n in [3, -2, 2, 1, -4] {
        assert_eq!(rt; pop(&heap, &mut stack), n);
    }
    Ok(())
}

#[test]
fn a_for_each_lies_among_the_operands(rt: HostRuntime) -> Result<(), Fail> {
    let heap = Heap::new(rt.alloc());
    let mut stack = FrameStack::new(rt.alloc());
    let mut keys = KeyList::new(rt.alloc());
    for key in ["b", "a"] {
        let mut text = Text::new(rt.alloc());
        assert!(rt; text.push_str(key).is_ok());
        assert!(rt; keys.push(text).is_ok());
    }
    assert!(rt; enter(&mut stack, 7, 70, 0, 0));
    assert!(rt; push(&mut stack, 1));
    assert!(rt; push_each(&mut stack, Each::Items(number(9), 4)));
    assert!(rt; push_each(&mut stack, Each::Keys(keys)));
    assert!(rt; push(&mut stack, 2));
    assert_eq!(rt; pop(&heap, &mut stack), 2);
    if stack.operand_count() > 0 {
        if let Operand::Each(Each::Keys(mut left)) = stack.pop() {
            let first = left.pop();
            assert!(rt; first.is_some_and(|key| key.as_str() == "a"));
            assert!(rt; left.pop().is_some_and(|key| key.as_str() == "b"));
            assert!(rt; left.pop().is_none());
        }
    }
    assert_eq!(rt; stack.operand_count(), 2);
    for n in [-2, 1, -4] {
        assert_eq!(rt; pop(&heap, &mut stack), n);
    }
    Ok(())
}

#[test]
fn arguments_move_from_call_to_call(rt: HostRuntime) -> Result<(), Fail> {
    let heap = Heap::new(rt.alloc());
    let mut stack = FrameStack::new(rt.alloc());
    assert!(rt; enter(&mut stack, 1, 10, 2, 0));
    for n in [5, 6, 7, 8] {
        assert!(rt; push(&mut stack, n));
    }
    assert!(rt; !enter(&mut stack, 2, 20, 3, 5));
    assert!(rt; enter(&mut stack, 2, 20, 3, 2));
    assert_eq!(rt; stack.call_count(), 2);
    assert_eq!(rt; stack.operand_count(), 2);
    assert_eq!(rt; stack.slot_count(), 3);
    let second = pop(&heap, &mut stack);
    assert_eq!(rt; set_slot(&heap, &mut stack, 1, second), -1);
    let first = pop(&heap, &mut stack);
    assert_eq!(rt; set_slot(&heap, &mut stack, 0, first), -1);
    for (n, v) in [(0, 7), (1, 8), (2, -1), (3, -4)] {
        assert_eq!(rt; slot(&heap, &stack, n), v);
    }
    assert_eq!(rt; set_slot(&heap, &mut stack, 1, 9), 8);
    assert_eq!(rt; pop(&heap, &mut stack), -4);
    assert_eq!(rt; function(&stack), 2);
    for v in [-1, 9, 7, -4] {
        assert_eq!(rt; pop_slot(&heap, &mut stack), v);
    }
    Ok(())
}

#[test]
fn a_call_ends_and_the_call_below_goes_on(rt: HostRuntime) -> Result<(), Fail> {
    let heap = Heap::new(rt.alloc());
    let mut stack = FrameStack::new(rt.alloc());
    assert_eq!(rt; leave(&heap, &mut stack), -4);
    assert!(rt; enter(&mut stack, 1, 10, 1, 0));
    set_place(&mut stack, 4);
    assert_eq!(rt; set_slot(&heap, &mut stack, 0, 3), -1);
    for n in [5, 6, 7] {
        assert!(rt; push(&mut stack, n));
    }
    assert!(rt; enter(&mut stack, 2, 20, 1, 1));
    set_place(&mut stack, 9);
    assert_eq!(rt; pop_below(&heap, &mut stack), -4);
    assert_eq!(rt; leave(&heap, &mut stack), -4);
    assert_eq!(rt; pop(&heap, &mut stack), 7);
    assert_eq!(rt; pop_below(&heap, &mut stack), 6);
    assert_eq!(rt; stack.operand_count_below(), 1);
    assert_eq!(rt; replace_m(&heap, &mut stack, 6), 20);
    assert_eq!(rt; pop_slot(&heap, &mut stack), -1);
    assert_eq!(rt; leave(&heap, &mut stack), 6);
    assert_eq!(rt; function(&stack), 1);
    assert_eq!(rt; place(&stack), 4);
    assert_eq!(rt; m(&heap, &stack), 10);
    assert_eq!(rt; slot(&heap, &stack, 0), 3);
    assert_eq!(rt; pop(&heap, &mut stack), 5);
    assert_eq!(rt; pop(&heap, &mut stack), -4);
    Ok(())
}

#[test]
fn an_actor_has_at_most_256_calls(rt: HostRuntime) -> Result<(), Fail> {
    let mut stack = FrameStack::new(rt.alloc());
    for n in 0..MAX_CALLS {
        assert!(rt; !stack.is_full());
        assert!(rt; enter(&mut stack, n, 0, 2, 0));
    }
    assert!(rt; stack.is_full());
    assert_eq!(rt; stack.call_count(), 256);
    Ok(())
}
