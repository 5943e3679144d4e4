//! Rows of the tests of operations: arguments, what is answered, and what the first argument then holds.
ghost use Rattle.std.specs.Prelude.{◌≡◌, ◌+◌, ◌^◌, ◌≤◌};

use brs_builtins::{Applied, Operation, apply};
use brs_copy::{copy_in, copy_out};
use brs_heap::{Heap, Plain, Shape, Value};
use chan_values::{
    ErrorCode, ItemList, Message, NoMemory, Pair, PairList, Portable, Text, text_of_value,
};
use std::alloc::Global;
use std::process::Abort;
use std::test::Fail;

pub fn text_of(alloc: Global, t: &str) -> Result<Text, NoMemory> {
    let mut text = Text::new(alloc);
    text.push_str(t)?;
    Ok(text)
}

fn named(word: &str) -> Portable {
    if word == "true" {
        return Portable::Truth(true);
    }
    if word == "false" {
        return Portable::Truth(false);
    }
    if word == "node" {
        return Portable::Node(1);
    }
    if word == "port" {
        Portable::Port(2)
    } else {
        Portable::Nothing
    }
}

/// `'` and a text, digits, digits with `&`, `true`, `false`, `node`, `port`, and `invalid` for any other word.
fn atom(alloc: Global, word: &str) -> Result<Portable, NoMemory> {
    if let Some(text) = word.strip_prefix('\'') {
        return Ok(Portable::Words(text_of(alloc, text)?));
    }
    if let Some(digits) = word.strip_suffix('&') {
        return Ok(match digits.parse::<i64>() {
            Ok(n) => Portable::Big(n),
            Err(_) => Portable::Nothing,
        });
    }
    Ok(match word.parse::<i32>() {
        Ok(n) => Portable::Small(n),
        Err(_) => named(word),
    })
}

fn items(alloc: Global, words: &str) -> Result<ItemList, NoMemory> {
    let mut list = ItemList::new(alloc);
    for word in words.split(' ') {
        let item = atom(alloc, word)?;
        if !word.is_empty() && list.has_room(&item) {
            list.push(item)?;
        }
    }
    Ok(list)
}

fn pairs(alloc: Global, words: &str) -> Result<PairList, NoMemory> {
    let mut list = PairList::new(alloc);
    for word in words.split(' ') {
        if let Some((key, value)) = word.split_once(':') {
            let pair = Pair {
                key: text_of(alloc, key)?,
                value: atom(alloc, value)?,
            };
            if list.may_follow(&pair.key) && list.has_room(&pair) {
                list.push(pair)?;
            }
        }
    }
    Ok(list)
}

/// Items with a space between in `[` and `]`, keys with their values in ascending order in `{` and `}`, else one value.
fn portable(alloc: Global, word: &str) -> Result<Portable, NoMemory> {
    if let Some(words) = word.strip_prefix('[') {
        let words = words.strip_suffix(']').unwrap_or(words);
        return Ok(Portable::Items(items(alloc, words)?));
    }
    if let Some(words) = word.strip_prefix('{') {
        let words = words.strip_suffix('}').unwrap_or(words);
        return Ok(Portable::Pairs(pairs(alloc, words)?));
    }
    atom(alloc, word)
}

fn message(alloc: Global) -> Result<Message, NoMemory> {
    Ok(Message {
        node: 7,
        id: text_of(alloc, "list")?,
        field: text_of(alloc, "itemfocused")?,
        payload: portable(alloc, "[1 'a]")?,
    })
}

/// The value that a word of a row writes; an array and an associative array are new ones.
pub fn value(alloc: Global, heap: &mut Heap, word: &str) -> Result<Value, NoMemory>
    ensures { heap.new.shares ≡ heap.old.shares }
{
    if word == "function" {
        return Ok(Value::plain(Plain::Function(3)));
    }
    if word == "screen" {
        return Ok(Value::plain(Plain::Screen));
    }
    if word == "message" {
        return heap.make_message(message(alloc)?);
    }
    copy_in(alloc, heap, &portable(alloc, word)?)
}

/// What was seen of an answer or of a value.
#[derive(Debug, Drop)]
pub enum Seen {
    /// An error that was raised.
    Error(ErrorCode),
    /// A String.
    Words(Text),
    /// Any other value that may leave its heap, by its text.
    Value(Text),
    Function,
    Message,
    Screen,
    /// A value that is too large to be shown.
    Large,
}

fn seen_copy(alloc: Global, heap: &Heap, v: &Value) -> Result<Seen, NoMemory> {
    match copy_out(alloc, heap, v) {
        Err(_) => Ok(Seen::Large),
        Ok(copy) => Ok(Seen::Value(text_of_value(alloc, &copy)?)),
    }
}

fn seen_value(alloc: Global, heap: &Heap, v: &Value) -> Result<Seen, NoMemory> {
    if let Some(text) = heap.text(v) {
        return Ok(Seen::Words(text_of(alloc, text.as_str())?));
    }
    match heap.plain(v) {
        Some(Plain::Function(_)) => Ok(Seen::Function),
        Some(Plain::Screen) => Ok(Seen::Screen),
        Some(_) => seen_copy(alloc, heap, v),
        None => match heap.shape(v) {
            Shape::Message => Ok(Seen::Message),
            _ => seen_copy(alloc, heap, v),
        },
    }
}

fn seen_answer(alloc: Global, heap: &Heap, answer: &Applied) -> Result<Seen, NoMemory> {
    match answer {
        Applied::Raised(error) => Ok(Seen::Error(*error)),
        Applied::Value(v) => seen_value(alloc, heap, v),
    }
}

/// As a row writes it.
fn written(alloc: Global, seen: &Seen) -> Result<String, Fail> {
    Ok(match seen {
        Seen::Error(error) => format!(in alloc; "{error:?}")?,
        Seen::Words(text) => {
            let words = text.as_str();
            format!(in alloc; "'{words}")?
        }
        Seen::Value(text) => {
            let words = text.as_str();
            format!(in alloc; "{words}")?
        }
        Seen::Function => format!(in alloc; "function")?,
        Seen::Message => format!(in alloc; "message")?,
        Seen::Screen => format!(in alloc; "screen")?,
        Seen::Large => format!(in alloc; "large")?,
    })
}

fn compare(rt: &impl Abort, alloc: Global, seen: &Seen, wanted: &str) -> Result<(), Fail> {
    let text = written(alloc, seen)?;
    assert_eq!(rt; text.as_str(), wanted);
    Ok(())
}

/// Applies an operation and compares its answer with what a row wants, which is the answer alone, or the answer, ` > ` and
/// what the first argument holds then.
pub fn check_call(
    rt: &impl Abort,
    alloc: Global,
    heap: &mut Heap,
    operation: Operation,
    arguments: &[Value],
    wanted: &str,
) -> Result<(), Fail>
    requires { 2 ^ 20 ≤ heap.old.shares }
    ensures { heap.old.shares ≤ heap.new.shares + 2 ^ 20 }
{
    let answer = apply(alloc, heap, operation, arguments)?;
    let seen = seen_answer(alloc, heap, &answer)?;
    let Some((value, holds)) = wanted.split_once(" > ") else {
        return compare(rt, alloc, &seen, wanted);
    };
    compare(rt, alloc, &seen, value)?;
    match arguments.first() {
        None => Ok(()),
        Some(first) => compare(rt, alloc, &seen_value(alloc, heap, first)?, holds),
    }
}

fn check_two(
    rt: &impl Abort,
    alloc: Global,
    operation: Operation,
    first: &str,
    second: &str,
    wanted: &str,
) -> Result<(), Fail> {
    let mut heap = Heap::new(alloc);
    let a = value(alloc, &mut heap, first)?;
    if second == "same" {
        let b = heap.share(&a);
        return check_call(rt, alloc, &mut heap, operation, &[a, b], wanted);
    }
    let b = value(alloc, &mut heap, second)?;
    check_call(rt, alloc, &mut heap, operation, &[a, b], wanted)
}

fn check_three(
    rt: &impl Abort,
    alloc: Global,
    operation: Operation,
    words: (&str, &str, &str),
    wanted: &str,
) -> Result<(), Fail> {
    let mut heap = Heap::new(alloc);
    let a = value(alloc, &mut heap, words.0)?;
    let b = value(alloc, &mut heap, words.1)?;
    let c = value(alloc, &mut heap, words.2)?;
    check_call(rt, alloc, &mut heap, operation, &[a, b, c], wanted)
}

fn check_none_or_one(
    rt: &impl Abort,
    alloc: Global,
    operation: Operation,
    word: &str,
    wanted: &str,
) -> Result<(), Fail> {
    let mut heap = Heap::new(alloc);
    if word.is_empty() {
        return check_call(rt, alloc, &mut heap, operation, &[], wanted);
    }
    let a = value(alloc, &mut heap, word)?;
    check_call(rt, alloc, &mut heap, operation, &[a], wanted)
}

/// Applies an operation to the arguments of a row, of which there are at most three. The second of two may be `same`: the
/// first one again.
fn check_row(
    rt: &impl Abort,
    alloc: Global,
    operation: Operation,
    arguments: &str,
    wanted: &str,
) -> Result<(), Fail> {
    match arguments.split_once('|') {
        None => check_none_or_one(rt, alloc, operation, arguments, wanted),
        Some((first, rest)) => match rest.split_once('|') {
            None => check_two(rt, alloc, operation, first, rest, wanted),
            Some((second, third)) => {
                check_three(rt, alloc, operation, (first, second, third), wanted)
            }
        },
    }
}

/// Each row has arguments, ` = `, and what `check_call` takes.
pub fn check(
    rt: &impl Abort,
    alloc: Global,
    operation: Operation,
    rows: &[&str],
) -> Result<(), Fail> {
    for row in rows {
        if let Some((arguments, wanted)) = row.split_once(" = ") {
            check_row(rt, alloc, operation, arguments, wanted)?;
        }
    }
    Ok(())
}
