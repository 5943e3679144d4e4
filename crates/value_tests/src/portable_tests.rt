//! What no clause says of portable values: the happy paths, the bounds, and that values cross threads.
ghost use Rattle.std.specs.Prelude.{◌≡◌, IfOk};

use chan_values::{
    ArgumentList, ErrorCode, ItemList, Message, NoMemory, Pair, PairList, Portable, Text,
    copy_message, copy_portable, escape_text, measure, same, text_of_value, write_value,
};
use std::alloc::Global;
use std::process::Abort;
use std::test::Fail;
use std::thread::join;

fn may_be_shared<T: Send + Sync>(_value: &T) {}

fn words(alloc: Global, t: &str) -> Result<Text, NoMemory>
    ensures { IfOk result (λ text. text ≡ t.now) }
{
    let mut text = Text::new(alloc);
    text.push_str(t)?;
    Ok(text)
}

fn add_item(rt: &impl Abort, items: &mut ItemList, item: Portable) -> Result<(), NoMemory> {
    assert!(rt; items.has_room(&item));
    items.push(item)
}

fn add_pair(
    rt: &impl Abort,
    alloc: Global,
    pairs: &mut PairList,
    key: &str,
    value: Portable,
) -> Result<(), NoMemory> {
    let pair = Pair {
        key: words(alloc, key)?,
        value,
    };
    assert!(rt; pairs.may_follow(&pair.key));
    assert!(rt; pairs.has_room(&pair));
    pairs.push(pair)
}

fn array_of_one(rt: &impl Abort, alloc: Global, item: Portable) -> Result<Portable, NoMemory> {
    let mut items = ItemList::new(alloc);
    add_item(rt, &mut items, item)?;
    Ok(Portable::Items(items))
}

fn two_pairs(
    rt: &impl Abort,
    alloc: Global,
    key: &str,
    last: Portable,
) -> Result<Portable, NoMemory> {
    let mut pairs = PairList::new(alloc);
    add_pair(rt, alloc, &mut pairs, "a", Portable::Small(1))?;
    add_pair(rt, alloc, &mut pairs, key, last)?;
    Ok(Portable::Pairs(pairs))
}

fn plain_value(alloc: Global, number: usize) -> Result<Portable, NoMemory> {
    match number {
        0 => Ok(Portable::Nothing),
        1 => Ok(Portable::Truth(true)),
        2 => Ok(Portable::Truth(false)),
        3 => Ok(Portable::Small(-7)),
        4 => Ok(Portable::Big(-7)),
        5 => Ok(Portable::Big(i64::MAX)),
        6 => Ok(Portable::Words(words(alloc, "a\"b\\\n\u{e9}")?)),
        7 => Ok(Portable::Node(3)),
        _ => Ok(Portable::Port(3)),
    }
}

/// A value for each number below 15, each other than all the others.
fn value(rt: &impl Abort, alloc: Global, number: usize) -> Result<Portable, NoMemory> {
    match number {
        9 => Ok(Portable::Items(ItemList::new(alloc))),
        10 => array_of_one(rt, alloc, Portable::Nothing),
        11 => array_of_one(rt, alloc, Portable::Items(ItemList::new(alloc))),
        12 => Ok(Portable::Pairs(PairList::new(alloc))),
        13 => two_pairs(rt, alloc, "b\t", Portable::Pairs(PairList::new(alloc))),
        14 => two_pairs(rt, alloc, "c", Portable::Pairs(PairList::new(alloc))),
        _ => plain_value(alloc, number),
    }
}

/// The text before escapes, the text with them, the depth and the parts of that value.
fn wanted(number: usize) -> (&'static str, &'static str, u32, u32) {
    match number {
        0 => ("invalid", "invalid", 0, 1),
        1 => ("true", "true", 0, 1),
        2 => ("false", "false", 0, 1),
        3 => ("-7", "-7", 0, 1),
        4 => ("-7&", "-7&", 0, 1),
        5 => ("9223372036854775807&", "9223372036854775807&", 0, 1),
        6 => ("\"a\"\"b\\\n\u{e9}\"", "\"a\"\"b\\5c\\0a\u{e9}\"", 0, 1),
        7 => ("node 3", "node 3", 0, 1),
        8 => ("port 3", "port 3", 0, 1),
        9 => ("[]", "[]", 1, 1),
        10 => ("[invalid]", "[invalid]", 1, 2),
        11 => ("[[]]", "[[]]", 2, 2),
        12 => ("{}", "{}", 1, 1),
        13 => ("{a: 1, b\t: {}}", "{a: 1, b\\09: {}}", 2, 3),
        _ => ("{a: 1, c: {}}", "{a: 1, c: {}}", 2, 3),
    }
}

fn check_text(
    rt: &impl Abort,
    alloc: Global,
    value: &Portable,
    number: usize,
) -> Result<(), NoMemory> {
    let (plain, escaped, depth, parts) = wanted(number);
    let text = text_of_value(alloc, value)?;
    assert_eq!(rt; text.as_str(), plain);
    let mut line = Text::new(alloc);
    write_value(alloc, value, &mut line)?;
    assert_eq!(rt; line.as_str(), escaped);
    assert_eq!(rt; measure(value).depth, depth);
    assert_eq!(rt; measure(value).parts, parts);
    Ok(())
}

#[test]
fn each_kind_of_value_is_written_and_measured(rt: HostRuntime) -> Result<(), Fail> {
    for number in 0..15 {
        let value = value(&rt, rt.alloc(), number)?;
        check_text(&rt, rt.alloc(), &value, number)?;
    }
    Ok(())
}

#[test]
fn bytes_that_would_end_or_hide_in_a_line_are_escaped(rt: HostRuntime) -> Result<(), Fail> {
    let alloc = rt.alloc();
    for (text, wanted) in [
        ("", ""),
        (" ~[]{}\",&", " ~[]{}\",&"),
        ("\u{0}\u{a}\u{d}\u{1f}", "\\00\\0a\\0d\\1f"),
        ("a\\b\u{7f}", "a\\5cb\\7f"),
        ("\u{80}\u{e9}\u{10ffff}", "\u{80}\u{e9}\u{10ffff}"),
    ] {
        assert_eq!(rt; escape_text(alloc, text)?.as_str(), wanted);
    }
    Ok(())
}

fn compare(rt: &impl Abort, alloc: Global, one: &Portable, number: usize) -> Result<(), NoMemory> {
    for other in 0..15 {
        let wanted = number == other;
        assert_eq!(rt;
            same(one, &value(rt, alloc, other)?),
            wanted,
            "{number} and {other}"
        );
    }
    Ok(())
}

#[test]
fn a_copy_is_the_same_as_its_value_and_as_no_other(rt: HostRuntime) -> Result<(), Fail> {
    for number in 0..15 {
        let one = value(&rt, rt.alloc(), number)?;
        let copy = copy_portable(rt.alloc(), &one)?;
        compare(&rt, rt.alloc(), &copy, number)?;
    }
    Ok(())
}

fn message(alloc: Global) -> Result<Message, NoMemory> {
    let id = words(alloc, "worker")?;
    let field = words(alloc, "n")?;
    Ok(Message {
        node: 2,
        id,
        field,
        payload: Portable::Small(7),
    })
}

#[test]
fn a_message_is_copied(rt: HostRuntime) -> Result<(), Fail> {
    let message = message(rt.alloc())?;
    let copy = copy_message(rt.alloc(), &message)?;
    assert_eq!(rt; copy.node, 2);
    assert_eq!(rt; copy.id.as_str(), "worker");
    assert_eq!(rt; copy.field.as_str(), "n");
    assert!(rt; same(&copy.payload, &Portable::Small(7)));
    Ok(())
}

#[test]
fn an_array_in_64_others_has_no_place_in_a_65th(rt: HostRuntime) -> Result<(), Fail> {
    let alloc = rt.alloc();
    let mut value = Portable::Nothing;
    for _ in 0..64 {
        value = array_of_one(&rt, alloc, value)?;
    }
    assert_eq!(rt; measure(&value).depth, 64);
    assert!(rt; !ItemList::new(alloc).has_room(&value));
    let pair = Pair {
        key: words(alloc, "k")?,
        value,
    };
    assert!(rt; !PairList::new(alloc).has_room(&pair));
    Ok(())
}

#[test]
fn an_array_has_at_most_65536_parts(rt: HostRuntime) -> Result<(), Fail> {
    let alloc = rt.alloc();
    let mut items = ItemList::new(alloc);
    assert!(rt; items.is_empty());
    for _ in 0..65_535 {
        add_item(&rt, &mut items, Portable::Nothing)?;
    }
    assert_eq!(rt; items.len(), 65_535);
    assert_eq!(rt; items.measure().parts, 65_536);
    assert!(rt; !items.has_room(&Portable::Nothing));
    Ok(())
}

#[test]
fn keys_are_folded_and_ascend(rt: HostRuntime) -> Result<(), Fail> {
    let alloc = rt.alloc();
    let mut pairs = PairList::new(alloc);
    add_pair(&rt, alloc, &mut pairs, "b", Portable::Nothing)?;
    for (key, wanted) in [("a", false), ("b", false), ("ba", true), ("C", false)] {
        assert_eq!(rt; pairs.may_follow(&words(alloc, key)?), wanted);
    }
    assert_eq!(rt; pairs.len(), 1);
    assert_eq!(rt; pairs.measure().parts, 2);
    assert!(rt; pairs.get(0).is_some());
    assert!(rt; pairs.get(1).is_none());
    Ok(())
}

#[test]
fn arguments_are_kept(rt: HostRuntime) -> Result<(), Fail> {
    let mut arguments = ArgumentList::new(rt.alloc());
    arguments.push(Portable::Small(5))?;
    let arguments = ArgumentList::from_vec(arguments.into_vec());
    assert_eq!(rt; arguments.len(), 1);
    assert!(rt;
        arguments
            .get(0)
            .is_some_and(|one| same(one, &Portable::Small(5)))
    );
    assert!(rt; arguments.get(1).is_none());
    Ok(())
}

#[test]
fn errors_are_numbered_from_1_to_12(rt: HostRuntime) {
    for (error, number) in [(ErrorCode::E1, 1), (ErrorCode::E2, 2), (ErrorCode::E12, 12)] {
        assert_eq!(rt; error.number(), number);
    }
}

#[test]
fn values_cross_threads(rt: HostRuntime) -> Result<(), Fail> {
    let alloc = rt.alloc();
    let value = value(&rt, alloc, 13)?;
    may_be_shared(&value);
    let (copy, parts) = join(
        &rt,
        || copy_portable(alloc, &value),
        || measure(&value).parts,
    );
    assert!(rt; same(&copy?, &value));
    assert_eq!(rt; parts, 3);
    Ok(())
}
