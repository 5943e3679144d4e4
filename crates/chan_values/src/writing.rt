//! The text of a value.
ghost use Rattle.std.specs.Prelude.{◌≡◌, ◌++◌, map, IfOk, OnOk, OnErr, encode_utf8, codes};
ghost use Rattle.std.specs.List.{flat_map};
ghost use Rattle.std.specs.Fmt.{decimal, signed_decimal};
ghost use Rattle.chan_values.specs.View.{tree_of, tree_pair_of};
ghost use Rattle.chan_values.specs.Escape.{escaped};
ghost use Rattle.chan_values.specs.ValueText.{doubled, quoted, value_text, pair_text, listed, separator};

use crate::{ItemList, NoMemory, Pair, PairList, Portable, Text, escape_text};
use std::alloc::Global;

fn write_doubled(c: char, out: &mut Text) -> Result<(), NoMemory>
    ensures { OnOk result (out.new ≡ out.old ++ flat_map doubled (encode_utf8 c)) }
{
    if c == '"' {
        return out.push_str("\"\"");
    }
    out.push(c)
}

fn write_quoted(text: &str, out: &mut Text) -> Result<(), NoMemory>
    ensures { OnOk result (out.new ≡ out.old ++ quoted text.now) }
{
    out.push('"')?;
    for c in text.chars() {
        write_doubled(c, out)?;
    }
    out.push('"')
}

fn write_integer(alloc: Global, n: i32, out: &mut Text) -> Result<(), NoMemory>
    ensures { OnOk result (out.new ≡ out.old ++ signed_decimal n) }
{
    match n.to_string(alloc) {
        Ok(text) => out.push_str(text.as_str()),
        Err(_) => Err(NoMemory),
    }
}

fn write_long_integer(alloc: Global, n: i64, out: &mut Text) -> Result<(), NoMemory>
    ensures { OnOk result (out.new ≡ out.old ++ (signed_decimal n ++ codes "&")) }
{
    match format!(in alloc; "{n}&") {
        Ok(text) => out.push_str(text.as_str()),
        Err(_) => Err(NoMemory),
    }
}

fn write_reference(alloc: Global, word: &str, n: u32, out: &mut Text) -> Result<(), NoMemory>
    ensures { OnOk result (out.new ≡ out.old ++ (word.now ++ decimal n)) }
{
    match format!(in alloc; "{word}{n}") {
        Ok(text) => out.push_str(text.as_str()),
        Err(_) => Err(NoMemory),
    }
}

/// Writes what stands before the item at a place.
fn write_separator(at: usize, out: &mut Text) -> Result<(), NoMemory>
    ensures { OnOk result (out.new ≡ out.old ++ separator at) }
{
    if at == 0 {
        return Ok(());
    }
    out.push_str(", ")
}

#[cycle(write)]
fn write_items(alloc: Global, items: &ItemList, out: &mut Text) -> Result<(), NoMemory>
    ensures { OnOk result (out.new ≡ out.old ++ listed (map value_text items.now)) }
{
    let slice = items.as_slice();
    for at in 0..slice.len() {
        write_separator(at, out)?;
        write_one(alloc, &slice[at], out)?;
    }
    Ok(())
}

#[cycle(write)]
fn write_pair(alloc: Global, pair: &Pair, out: &mut Text) -> Result<(), NoMemory>
    ensures { OnOk result (out.new ≡ out.old ++ pair_text (tree_pair_of pair.now)) }
{
    out.push_str(pair.key.as_str())?;
    out.push_str(": ")?;
    write_one(alloc, &pair.value, out)
}

#[cycle(write)]
fn write_pairs(alloc: Global, pairs: &PairList, out: &mut Text) -> Result<(), NoMemory>
    ensures { OnOk result (out.new ≡ out.old ++ listed (map pair_text pairs.now)) }
{
    let slice = pairs.as_slice();
    for at in 0..slice.len() {
        write_separator(at, out)?;
        write_pair(alloc, &slice[at], out)?;
    }
    Ok(())
}

#[cycle(write)]
fn write_one(alloc: Global, p: &Portable, out: &mut Text) -> Result<(), NoMemory>
    ensures { OnOk result (out.new ≡ out.old ++ value_text (tree_of p.now)) }
{
    match p {
        Portable::Nothing => out.push_str("invalid"),
        Portable::Truth(true) => out.push_str("true"),
        Portable::Truth(false) => out.push_str("false"),
        Portable::Small(n) => write_integer(alloc, *n, out),
        Portable::Big(n) => write_long_integer(alloc, *n, out),
        Portable::Words(t) => write_quoted(t.as_str(), out),
        Portable::Items(items) => {
            out.push_str("[")?;
            write_items(alloc, items, out)?;
            out.push_str("]")
        }
        Portable::Pairs(pairs) => {
            out.push_str("{")?;
            write_pairs(alloc, pairs, out)?;
            out.push_str("}")
        }
        Portable::Node(n) => write_reference(alloc, "node ", *n, out),
        Portable::Port(n) => write_reference(alloc, "port ", *n, out),
    }
}

/// The text of a value before escapes, as it stands in what a print writes.
pub fn text_of_value(alloc: Global, p: &Portable) -> Result<Text, NoMemory>
    ensures { IfOk result (λ text. text ≡ value_text (tree_of p.now)) }
{
    let mut text = Text::new(alloc);
    write_one(alloc, p, &mut text)?;
    Ok(text)
}

/// Adds the text of a value with its escapes, as it stands in a report. After an `Err` nothing has changed.
pub fn write_value(alloc: Global, p: &Portable, out: &mut Text) -> Result<(), NoMemory>
    ensures ok { OnOk result (out.new ≡ out.old ++ escaped (value_text (tree_of p.now))) }
    ensures err { OnErr result (out.new ≡ out.old) }
{
    let plain = text_of_value(alloc, p)?;
    out.push_str(escape_text(alloc, plain.as_str())?.as_str())
}
