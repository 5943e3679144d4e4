//! Values that move between the operands, the slots and the `m` of a call.
ghost use Rattle.std.specs.Prelude.{◌≡◌, ◌+◌, ◌<◌, ◌≤◌};

use brs_heap::{Heap, Plain, Value};
use chan_values::NoMemory;
use frame_actions::{drop_to, go_to, load_m, load_slot, push_value, store, take_truth, take_value};
use frame_stack::{CallHead, CallKind, Each, FrameStack, Landing};
use std::test::Fail;

fn enter(stack: &mut FrameStack, m: Value, slots: usize) -> Result<(), NoMemory> {
    let head = CallHead {
        kind: CallKind::OnTop,
        function: 0,
        path: 0,
        home: 0,
        place: 0,
        line: 0,
        landing: Landing::Nowhere,
    };
    stack.enter(head, m, slots, 0)
}

/// Puts a plain value on the operands, and leads to a place.
fn push(stack: &mut FrameStack, plain: Plain, place: usize) -> Result<(), NoMemory> {
    if stack.call_count() == 0 {
        return Err(NoMemory);
    }
    push_value(stack, Value::plain(plain), place)
}

fn store_in(heap: &mut Heap, stack: &mut FrameStack, slot: usize, place: usize) -> bool
    ensures { heap.new.shares ≡ heap.old.shares }
{
    if stack.operand_count() == 0 || slot >= stack.slot_count() {
        return false;
    }
    store(heap, stack, slot, place);
    true
}

fn load_from(
    heap: &mut Heap,
    stack: &mut FrameStack,
    slot: usize,
    place: usize,
) -> Result<bool, NoMemory>
    requires { 0 < heap.old.shares }
    ensures { heap.old.shares ≤ heap.new.shares + 1 }
{
    if slot >= stack.slot_count() {
        return Err(NoMemory);
    }
    load_slot(heap, stack, slot, place)
}

fn load_own_m(heap: &mut Heap, stack: &mut FrameStack, place: usize) -> Result<(), NoMemory>
    requires { 0 < heap.old.shares }
    ensures { heap.old.shares ≤ heap.new.shares + 1 }
{
    if stack.call_count() == 0 {
        return Err(NoMemory);
    }
    load_m(heap, stack, place)
}

/// The number that the last operand is, -1 where it is none, and -2 where there is no operand.
fn take(heap: &mut Heap, stack: &mut FrameStack) -> i32 {
    if stack.operand_count() == 0 {
        return -2;
    }
    let v = take_value(heap, stack);
    let plain = heap.plain(&v);
    heap.release(v);
    match plain {
        Some(Plain::Small(n)) => n,
        _ => -1,
    }
}

/// 1 and 0 for the two Booleans, and -1 for another value.
fn take_condition(heap: &mut Heap, stack: &mut FrameStack) -> i32 {
    if stack.operand_count() == 0 {
        return -2;
    }
    match take_truth(heap, stack) {
        Some(true) => 1,
        Some(false) => 0,
        None => -1,
    }
}

/// The place of the innermost call.
fn place(stack: &FrameStack) -> usize {
    if stack.call_count() == 0 {
        return 0;
    }
    stack.head().place
}

#[test]
fn a_stored_value_is_loaded(rt: HostRuntime) -> Result<(), Fail> {
    let mut heap = Heap::new(rt.alloc());
    let mut stack = FrameStack::new(rt.alloc());
    enter(&mut stack, Value::plain(Plain::Invalid), 2)?;
    push(&mut stack, Plain::Small(7), 1)?;
    assert_eq!(rt; place(&stack), 1);
    assert!(rt; store_in(&mut heap, &mut stack, 0, 2));
    assert_eq!(rt; place(&stack), 2);
    assert_eq!(rt; stack.operand_count(), 0);
    assert!(rt; load_from(&mut heap, &mut stack, 0, 3)?);
    assert_eq!(rt; place(&stack), 3);
    assert_eq!(rt; take(&mut heap, &mut stack), 7);
    Ok(())
}

#[test]
fn an_unset_slot_loads_nothing(rt: HostRuntime) -> Result<(), Fail> {
    let mut heap = Heap::new(rt.alloc());
    let mut stack = FrameStack::new(rt.alloc());
    enter(&mut stack, Value::plain(Plain::Invalid), 2)?;
    assert!(rt; !load_from(&mut heap, &mut stack, 1, 9)?);
    assert_eq!(rt; place(&stack), 0);
    assert_eq!(rt; stack.operand_count(), 0);
    Ok(())
}

#[test]
fn m_is_loaded_and_stays(rt: HostRuntime) -> Result<(), Fail> {
    let mut heap = Heap::new(rt.alloc());
    let mut stack = FrameStack::new(rt.alloc());
    enter(&mut stack, Value::plain(Plain::Small(3)), 0)?;
    load_own_m(&mut heap, &mut stack, 1)?;
    assert_eq!(rt; take(&mut heap, &mut stack), 3);
    assert_eq!(rt; take(&mut heap, &mut stack), -2);
    Ok(())
}

#[test]
fn conditions_are_booleans_alone(rt: HostRuntime) -> Result<(), Fail> {
    let mut heap = Heap::new(rt.alloc());
    let mut stack = FrameStack::new(rt.alloc());
    enter(&mut stack, Value::plain(Plain::Invalid), 0)?;
    push(&mut stack, Plain::Truth(true), 1)?;
    assert_eq!(rt; take_condition(&mut heap, &mut stack), 1);
    push(&mut stack, Plain::Truth(false), 1)?;
    assert_eq!(rt; take_condition(&mut heap, &mut stack), 0);
    push(&mut stack, Plain::Small(1), 1)?;
    assert_eq!(rt; take_condition(&mut heap, &mut stack), -1);
    assert_eq!(rt; stack.operand_count(), 0);
    Ok(())
}

#[test]
fn what_a_loop_goes_over_is_no_value(rt: HostRuntime) -> Result<(), Fail> {
    let mut heap = Heap::new(rt.alloc());
    let mut stack = FrameStack::new(rt.alloc());
    enter(&mut stack, Value::plain(Plain::Invalid), 0)?;
    let array = heap.make_array()?;
    if stack.call_count() > 0 {
        stack.push_each(Each::Items(array, 0))?;
    }
    assert_eq!(rt; take(&mut heap, &mut stack), -1);
    push(&mut stack, Plain::Small(1), 1)?;
    push(&mut stack, Plain::Small(2), 2)?;
    if stack.call_count() > 0 && stack.operand_count() >= 1 {
        drop_to(&mut heap, &mut stack, 1, 5);
    }
    if stack.call_count() > 0 {
        let at = place(&stack);
        go_to(&mut stack, at / 5 + 5);
    }
    assert_eq!(rt; place(&stack), 6);
    assert_eq!(rt; take(&mut heap, &mut stack), 1);
    Ok(())
}
