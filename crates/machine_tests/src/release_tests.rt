//! What calls hold is taken back.
use brs_heap::{Heap, Plain, Value};
use call_release::{drop_operands, release_calls};
use chan_values::NoMemory;
use frame_stack::{CallHead, CallKind, Each, FrameStack, Landing};
use std::test::Fail;

fn enter(stack: &mut FrameStack, m: Value, slots: usize) -> Result<(), NoMemory> {
    let head = CallHead {
        kind: CallKind::OnTop,
        function: 0,
        path: 0,
        home: 0,
        place: 0,
        line: 0,
        landing: Landing::Nowhere,
    };
    stack.enter(head, m, slots, 0)
}

fn push(stack: &mut FrameStack, v: Value) -> Result<(), NoMemory> {
    if stack.call_count() == 0 {
        return Err(NoMemory);
    }
    stack.push(v)
}

fn push_items(stack: &mut FrameStack, array: Value) -> Result<(), NoMemory> {
    if stack.call_count() == 0 {
        return Err(NoMemory);
    }
    stack.push_each(Each::Items(array, 0))
}

/// Sets the first slot, which was unset.
fn set_slot(stack: &mut FrameStack, v: Value) -> bool {
    if stack.slot_count() == 0 {
        return false;
    }
    stack.set_slot(0, v).is_none()
}

#[test]
fn all_calls_end(rt: HostRuntime) -> Result<(), Fail> {
    let mut heap = Heap::new(rt.alloc());
    let mut stack = FrameStack::new(rt.alloc());
    for _call in 0..3 {
        let m = heap.make_pairs()?;
        enter(&mut stack, m, 2)?;
        let array = heap.make_array()?;
        push_items(&mut stack, array)?;
        let local = heap.make_array()?;
        assert!(rt; set_slot(&mut stack, local));
    }
    assert_eq!(rt; stack.call_count(), 3);
    release_calls(&mut heap, &mut stack);
    assert_eq!(rt; stack.call_count(), 0);
    assert_eq!(rt; stack.operand_count(), 0);
    assert_eq!(rt; stack.slot_count(), 0);
    Ok(())
}

#[test]
fn the_last_operands_are_dropped(rt: HostRuntime) -> Result<(), Fail> {
    let mut heap = Heap::new(rt.alloc());
    let mut stack = FrameStack::new(rt.alloc());
    enter(&mut stack, Value::plain(Plain::Invalid), 0)?;
    for n in [1, 2, 3] {
        push(&mut stack, Value::plain(Plain::Small(n)))?;
    }
    if stack.operand_count() >= 2 {
        drop_operands(&mut heap, &mut stack, 2);
    }
    assert_eq!(rt; stack.operand_count(), 1);
    Ok(())
}
