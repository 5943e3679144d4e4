//! Values and marks, as the rows of the tests write them.
ghost use Rattle.std.specs.Prelude.{◌≡◌};

use brs_code::Mark;
use brs_copy::copy_in;
use brs_heap::{Heap, Plain, Value};
use chan_values::{ErrorCode, ItemList, Message, NoMemory, Pair, PairList, Portable, Text};
use printed_text::Printing;
use std::alloc::{AllocError, Global};
use std::test::Fail;

pub fn text_of(alloc: Global, t: &str) -> Result<Text, NoMemory> {
    let mut text = Text::new(alloc);
    text.push_str(t)?;
    Ok(text)
}

/// `;` and `,` as they are, and any other character for a value.
fn mark(c: char) -> Mark {
    match c {
        ';' => Mark::Semicolon,
        ',' => Mark::Comma,
        _ => Mark::Value,
    }
}

pub fn marks(alloc: Global, row: &str) -> Result<Vec<Mark>, AllocError> {
    let mut marks = Vec::new(alloc);
    for c in row.chars() {
        marks.push(mark(c))?;
    }
    Ok(marks)
}

/// `'` and a text, digits, digits with `&`, `true`, `false`, and `invalid` for any other word.
fn atom(alloc: Global, word: &str) -> Result<Portable, NoMemory> {
    if let Some(text) = word.strip_prefix('\'') {
        return Ok(Portable::Words(text_of(alloc, text)?));
    }
    if let Some(digits) = word.strip_suffix('&') {
        return Ok(match digits.parse::<i64>() {
            Ok(n) => Portable::Big(n),
            Err(_) => Portable::Nothing,
        });
    }
    if word == "true" || word == "false" {
        return Ok(Portable::Truth(word == "true"));
    }
    Ok(match word.parse::<i32>() {
        Ok(n) => Portable::Small(n),
        Err(_) => Portable::Nothing,
    })
}

/// The words with a space between them.
fn items(alloc: Global, words: &str) -> Result<Portable, NoMemory> {
    let mut list = ItemList::new(alloc);
    for word in words.split(' ') {
        let item = atom(alloc, word)?;
        if !word.is_empty() && list.has_room(&item) {
            list.push(item)?;
        }
    }
    Ok(Portable::Items(list))
}

/// Keys in ascending order, each with `:` and its value.
fn pairs(alloc: Global, words: &str) -> Result<Portable, NoMemory> {
    let mut list = PairList::new(alloc);
    for word in words.split(' ') {
        if let Some((key, value)) = word.split_once(':') {
            let pair = Pair {
                key: text_of(alloc, key)?,
                value: atom(alloc, value)?,
            };
            if list.may_follow(&pair.key) && list.has_room(&pair) {
                list.push(pair)?;
            }
        }
    }
    Ok(Portable::Pairs(list))
}

fn portable(alloc: Global, word: &str) -> Result<Portable, NoMemory> {
    if let Some(words) = word.strip_prefix('[') {
        return items(alloc, words);
    }
    if let Some(words) = word.strip_prefix('{') {
        return pairs(alloc, words);
    }
    atom(alloc, word)
}

fn message(alloc: Global) -> Result<Message, NoMemory> {
    Ok(Message {
        node: 7,
        id: text_of(alloc, "list")?,
        field: text_of(alloc, "itemfocused")?,
        payload: atom(alloc, "1")?,
    })
}

/// What is known outside by no word.
fn plain(word: &str) -> Option<Plain> {
    match word {
        "function" => Some(Plain::Function(3)),
        "screen" => Some(Plain::Screen),
        "node" => Some(Plain::Node(7)),
        "port" => Some(Plain::Port(12)),
        _ => None,
    }
}

pub fn value(alloc: Global, heap: &mut Heap, word: &str) -> Result<Value, NoMemory>
    ensures { heap.new.shares ≡ heap.old.shares }
{
    if let Some(plain) = plain(word) {
        return Ok(Value::plain(plain));
    }
    if word == "message" {
        return heap.make_message(message(alloc)?);
    }
    copy_in(alloc, heap, &portable(alloc, word)?)
}

/// The values of the words with a `|` between them.
pub fn values(alloc: Global, heap: &mut Heap, words: &str) -> Result<Vec<Value>, Fail>
    ensures { heap.new.shares ≡ heap.old.shares }
{
    let mut values = Vec::new(alloc);
    for word in words.split('|') {
        if !word.is_empty() {
            values.push(value(alloc, heap, word)?)?;
        }
    }
    Ok(values)
}

/// The text, with a `.` for each space, or the error.
pub fn seen(alloc: Global, printing: &Printing) -> Result<String, AllocError> {
    match printing {
        Printing::Raises(error) => error_text(alloc, *error),
        Printing::Printed(text) => {
            let mut seen = String::new(alloc);
            for c in text.as_str().chars() {
                seen.push(if c == ' ' { '.' } else { c })?;
            }
            Ok(seen)
        }
    }
}

fn error_text(alloc: Global, error: ErrorCode) -> Result<String, AllocError> {
    format!(in alloc; "{error:?}")
}
