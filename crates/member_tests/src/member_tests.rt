//! Members and items that are read and written, and nodes that are asked.
ghost use Rattle.std.specs.Prelude.{◌≡◌, ◌+◌, ◌<◌, ◌≤◌, length, true};
ghost use Rattle.frame_stack.specs.Frame.{operands_of};
ghost use Rattle.moving_instructions.specs.Behind.{HasPlaceBehind};

use actor_meaning::Request;
use brs_code::{Function, ValueType};
use brs_heap::{Heap, Plain, Value};
use chan_values::{Access, ErrorCode, NoMemory, Portable, Text};
use frame_actions::{drop_to, push_value};
use frame_stack::{CallHead, CallKind, FrameStack, Landing};
use instruction_effects::Effect;
use member_instructions::{index, keep_index, keep_member, member, store_index, store_member};
use sqlite_items::Items;
use std::alloc::Global;
use std::test::Fail;

/// What an instruction did, as far as the tests look at it.
#[derive(Clone, Copy, Debug, PartialEq, Eq)]
enum Did {
    Went,
    Raised(ErrorCode),
    /// A node is asked for a field with a name of this length.
    Got(u32, usize),
    /// A number is written to a field of a node.
    Set(u32, i32),
    Other,
}

/// What is seen after an instruction.
#[derive(Clone, Copy, Debug, PartialEq, Eq)]
struct Seen {
    did: Did,
    /// How many operands are left.
    left: usize,
    /// The number that the last of them is, -1 where it is none, and -2 without one.
    last: i32,
}

fn told(effect: &Effect) -> Did {
    match effect {
        Effect::Went => Did::Went,
        Effect::Raises(error) => Did::Raised(*error),
        Effect::Asks(Request::Access(Access::Get { node, field })) => Did::Got(*node, field.len()),
        Effect::Asks(
            Request::Access(
                Access::Set {
                    node,
                    field: _,
                    value,
                },
            ),
        ) => match value {
            Portable::Small(n) => Did::Set(*node, *n),
            _ => Did::Other,
        },
        Effect::Asks(_) => Did::Other,
    }
}

/// A function whose one text is `name`.
fn function(alloc: Global) -> Result<Function, NoMemory> {
    let mut name = Text::new(alloc);
    name.push_str("name")?;
    let mut texts = Items::new(alloc);
    if texts.push(name).is_err() {
        return Err(NoMemory);
    }
    Ok(Function {
        path: 0,
        line: 1,
        first: 0,
        parameters: Items::new(alloc),
        needed: 0,
        value: ValueType::Any,
        names: Items::new(alloc),
        texts,
        marks: Items::new(alloc),
        start: 0,
        code: Items::new(alloc),
    })
}

/// A call without operands.
fn call(alloc: Global) -> Result<FrameStack, NoMemory> {
    let mut stack = FrameStack::new(alloc);
    let head = CallHead {
        kind: CallKind::OnTop,
        function: 0,
        path: 0,
        home: 0,
        place: 0,
        line: 0,
        landing: Landing::Nowhere,
    };
    stack.enter(head, Value::plain(Plain::Invalid), 0, 0)?;
    Ok(stack)
}

/// Whether there is a call with so many operands, and a place behind its instruction.
fn is_ready(stack: &FrameStack, operands: usize) -> bool
    ensures there { result ≡ true → 0 < length stack.now }
    ensures operands { result ≡ true → operands ≤ length (operands_of stack.now) }
    ensures inside { result ≡ true → HasPlaceBehind stack.now }
{
    if stack.call_count() == 0 || stack.operand_count() < operands {
        return false;
    }
    stack.head().place < 1000
}

fn push(stack: &mut FrameStack, v: Value) -> Result<(), NoMemory> {
    if stack.call_count() == 0 {
        return Err(NoMemory);
    }
    push_value(stack, v, 0)
}

fn push_number(stack: &mut FrameStack, n: i32) -> Result<(), NoMemory> {
    push(stack, Value::plain(Plain::Small(n)))
}

fn push_name(alloc: Global, heap: &mut Heap, stack: &mut FrameStack) -> Result<(), NoMemory>
    ensures { heap.new.shares ≡ heap.old.shares }
{
    let mut name = Text::new(alloc);
    name.push_str("Name")?;
    let v = heap.make_text(name)?;
    push(stack, v)
}

fn last_number(heap: &Heap, stack: &FrameStack) -> i32 {
    if stack.operand_count() == 0 {
        return -2;
    }
    match heap.plain(&stack.last(1)[0]) {
        Some(Plain::Small(n)) => n,
        _ => -1,
    }
}

fn look(heap: &Heap, stack: &FrameStack, effect: &Effect) -> Seen {
    Seen {
        did: told(effect),
        left: stack.operand_count(),
        last: last_number(heap, stack),
    }
}

fn drop_last(heap: &mut Heap, stack: &mut FrameStack)
    ensures { heap.new.shares ≡ heap.old.shares }
{
    if stack.call_count() > 0 && stack.operand_count() > 0 {
        drop_to(heap, stack, 1, 0);
    }
}

fn run_member(
    alloc: Global,
    heap: &mut Heap,
    stack: &mut FrameStack,
    function: &Function,
) -> Result<Seen, NoMemory>
    requires { 0 < heap.old.shares }
    ensures { heap.old.shares ≤ heap.new.shares + 1 }
{
    if !is_ready(stack, 1) || function.texts.len() == 0 {
        return Err(NoMemory);
    }
    let effect = member(alloc, heap, stack, function, 0, 5)?;
    Ok(look(heap, stack, &effect))
}

fn run_keep_member(
    alloc: Global,
    heap: &mut Heap,
    stack: &mut FrameStack,
    function: &Function,
) -> Result<Seen, NoMemory>
    requires { 0 < heap.old.shares }
    ensures { heap.old.shares ≤ heap.new.shares + 1 }
{
    if !is_ready(stack, 1) || function.texts.len() == 0 {
        return Err(NoMemory);
    }
    let effect = keep_member(alloc, heap, stack, function, 0, 5)?;
    Ok(look(heap, stack, &effect))
}

fn run_store_member(
    alloc: Global,
    heap: &mut Heap,
    stack: &mut FrameStack,
    function: &Function,
) -> Result<Seen, NoMemory>
    requires { 0 < heap.old.shares }
    ensures { heap.old.shares ≤ heap.new.shares + 1 }
{
    if !is_ready(stack, 2) || function.texts.len() == 0 {
        return Err(NoMemory);
    }
    let effect = store_member(alloc, heap, stack, function, 0, 5)?;
    Ok(look(heap, stack, &effect))
}

fn run_index(alloc: Global, heap: &mut Heap, stack: &mut FrameStack) -> Result<Seen, NoMemory>
    requires { 0 < heap.old.shares }
    ensures { heap.old.shares ≤ heap.new.shares + 1 }
{
    if !is_ready(stack, 2) {
        return Err(NoMemory);
    }
    let effect = index(alloc, heap, stack, 5)?;
    Ok(look(heap, stack, &effect))
}

fn run_keep_index(alloc: Global, heap: &mut Heap, stack: &mut FrameStack) -> Result<Seen, NoMemory>
    requires { 0 < heap.old.shares }
    ensures { heap.old.shares ≤ heap.new.shares + 1 }
{
    if !is_ready(stack, 2) {
        return Err(NoMemory);
    }
    let effect = keep_index(alloc, heap, stack, 5)?;
    Ok(look(heap, stack, &effect))
}

fn run_store_index(alloc: Global, heap: &mut Heap, stack: &mut FrameStack) -> Result<Seen, NoMemory>
    requires { 0 < heap.old.shares }
    ensures { heap.old.shares ≤ heap.new.shares + 1 }
{
    if !is_ready(stack, 3) {
        return Err(NoMemory);
    }
    let effect = store_index(alloc, heap, stack, 5)?;
    Ok(look(heap, stack, &effect))
}

/// Writes a member, reads it for an assignment, and reads it.
fn members(
    alloc: Global,
    heap: &mut Heap,
    stack: &mut FrameStack,
    function: &Function,
) -> Result<(Seen, Seen, Seen), NoMemory>
    requires { 4 ≤ heap.old.shares }
{
    let pairs = heap.make_pairs()?;
    let again = heap.share(&pairs);
    push(stack, again)?;
    push_number(stack, 7)?;
    let written = run_store_member(alloc, heap, stack, function)?;
    push(stack, pairs)?;
    let kept = run_keep_member(alloc, heap, stack, function)?;
    drop_last(heap, stack);
    let read = run_member(alloc, heap, stack, function)?;
    Ok((written, kept, read))
}

/// The same of an item of an array.
fn items(
    alloc: Global,
    heap: &mut Heap,
    stack: &mut FrameStack,
) -> Result<(Seen, Seen, Seen), NoMemory>
    requires { 4 ≤ heap.old.shares }
{
    let array = heap.make_array()?;
    let again = heap.share(&array);
    push(stack, again)?;
    push_number(stack, 2)?;
    push_number(stack, 9)?;
    let written = run_store_index(alloc, heap, stack)?;
    push(stack, array)?;
    push_number(stack, 2)?;
    let kept = run_keep_index(alloc, heap, stack)?;
    drop_last(heap, stack);
    let read = run_index(alloc, heap, stack)?;
    Ok((written, kept, read))
}

/// Reads and writes fields of nodes.
fn fields(
    alloc: Global,
    heap: &mut Heap,
    stack: &mut FrameStack,
    function: &Function,
) -> Result<(Seen, Seen, Seen), NoMemory>
    requires { 3 ≤ heap.old.shares }
{
    push(stack, Value::plain(Plain::Node(3)))?;
    let read = run_member(alloc, heap, stack, function)?;
    push(stack, Value::plain(Plain::Node(5)))?;
    push_name(alloc, heap, stack)?;
    let kept = run_keep_index(alloc, heap, stack)?;
    push_number(stack, 6)?;
    let written = run_store_index(alloc, heap, stack)?;
    Ok((read, kept, written))
}

/// Reads where there is no member and no item.
fn refused(
    alloc: Global,
    heap: &mut Heap,
    stack: &mut FrameStack,
    function: &Function,
) -> Result<(Seen, Seen, Seen), NoMemory>
    requires { 3 ≤ heap.old.shares }
{
    push_number(stack, 1)?;
    let of_number = run_member(alloc, heap, stack, function)?;
    push(stack, Value::plain(Plain::Invalid))?;
    let of_invalid = run_keep_member(alloc, heap, stack, function)?;
    push(stack, Value::plain(Plain::Node(1)))?;
    push_number(stack, 1)?;
    let of_node = run_index(alloc, heap, stack)?;
    Ok((of_number, of_invalid, of_node))
}

#[test]
fn a_member_that_was_written_is_read(rt: HostRuntime) -> Result<(), Fail> {
    let mut heap = Heap::new(rt.alloc());
    let mut stack = call(rt.alloc())?;
    let function = function(rt.alloc())?;
    let (first, second, third) = members(rt.alloc(), &mut heap, &mut stack, &function)?;
    assert_eq!(rt;
        first,
        Seen {
            did: Did::Went,
            left: 0,
            last: -2
        }
    );
    assert_eq!(rt;
        second,
        Seen {
            did: Did::Went,
            left: 2,
            last: 7
        }
    );
    assert_eq!(rt;
        third,
        Seen {
            did: Did::Went,
            left: 1,
            last: 7
        }
    );
    Ok(())
}

#[test]
fn an_item_that_was_written_is_read(rt: HostRuntime) -> Result<(), Fail> {
    let mut heap = Heap::new(rt.alloc());
    let mut stack = call(rt.alloc())?;
    let (first, second, third) = items(rt.alloc(), &mut heap, &mut stack)?;
    assert_eq!(rt;
        first,
        Seen {
            did: Did::Went,
            left: 0,
            last: -2
        }
    );
    assert_eq!(rt;
        second,
        Seen {
            did: Did::Went,
            left: 3,
            last: 9
        }
    );
    assert_eq!(rt;
        third,
        Seen {
            did: Did::Went,
            left: 1,
            last: 9
        }
    );
    Ok(())
}

#[test]
fn a_node_is_asked(rt: HostRuntime) -> Result<(), Fail> {
    let mut heap = Heap::new(rt.alloc());
    let mut stack = call(rt.alloc())?;
    let function = function(rt.alloc())?;
    let (first, second, third) = fields(rt.alloc(), &mut heap, &mut stack, &function)?;
    assert_eq!(rt;
        first,
        Seen {
            did: Did::Got(3, 4),
            left: 0,
            last: -2
        }
    );
    assert_eq!(rt;
        second,
        Seen {
            did: Did::Got(5, 4),
            left: 2,
            last: -1
        }
    );
    assert_eq!(rt;
        third,
        Seen {
            did: Did::Set(5, 6),
            left: 0,
            last: -2
        }
    );
    Ok(())
}

#[test]
fn errors_by_what_has_no_member(rt: HostRuntime) -> Result<(), Fail> {
    let mut heap = Heap::new(rt.alloc());
    let mut stack = call(rt.alloc())?;
    let function = function(rt.alloc())?;
    let (first, second, third) = refused(rt.alloc(), &mut heap, &mut stack, &function)?;
    assert_eq!(rt;
        first,
        Seen {
            did: Did::Raised(ErrorCode::E4),
            left: 1,
            last: 1
        }
    );
    assert_eq!(rt;
        second,
        Seen {
            did: Did::Raised(ErrorCode::E7),
            left: 2,
            last: -1
        }
    );
    assert_eq!(rt;
        third,
        Seen {
            did: Did::Raised(ErrorCode::E2),
            left: 4,
            last: 1
        }
    );
    Ok(())
}
