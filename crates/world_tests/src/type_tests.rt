//! What no clause says: the happy paths, each word with each kind of value, and each kind of attribute text.
use chan_values::{ItemList, NoMemory, PairList, Portable, Text, text_of_value};
use field_types::{AttributeAnswer, FieldType, convert, field_type, opening, read_attribute};
use std::alloc::Global;
use std::process::Abort;
use std::test::Fail;

const TYPES: [FieldType; 11] = [
    FieldType::Integer,
    FieldType::LongInteger,
    FieldType::Boolean,
    FieldType::String,
    FieldType::Node,
    FieldType::AssocArray,
    FieldType::Array,
    FieldType::StringArray,
    FieldType::IntArray,
    FieldType::BoolArray,
    FieldType::NodeArray,
];

#[test]
fn types_are_named_in_any_case(rt: HostRuntime) {
    assert_eq!(rt; field_type(b"Integer"), Some(FieldType::Integer));
    assert_eq!(rt; field_type(b"INT"), Some(FieldType::Integer));
    assert_eq!(rt; field_type(b"long"), Some(FieldType::LongInteger));
    assert_eq!(rt; field_type(b"bool"), Some(FieldType::Boolean));
    assert_eq!(rt; field_type(b"color"), Some(FieldType::String));
    assert_eq!(rt; field_type(b"uri"), Some(FieldType::String));
    assert_eq!(rt; field_type(b"node"), Some(FieldType::Node));
    assert_eq!(rt; field_type(b"assocArray"), Some(FieldType::AssocArray));
    assert_eq!(rt; field_type(b"nodearray"), Some(FieldType::NodeArray));
    assert_eq!(rt; field_type(b"float"), None);
    assert_eq!(rt; field_type(b"integers"), None);
    assert_eq!(rt; field_type(b""), None);
}

fn array_of(alloc: Global, items: [Portable; 2]) -> Result<Portable, NoMemory> {
    let mut list = ItemList::new(alloc);
    for item in items {
        if list.has_room(&item) {
            list.push(item)?;
        }
    }
    Ok(Portable::Items(list))
}

/// A value for each number below 16.
fn value(alloc: Global, number: usize) -> Result<Portable, NoMemory> {
    match number {
        0 => Ok(Portable::Nothing),
        1 => Ok(Portable::Truth(true)),
        2 => Ok(Portable::Small(-7)),
        3 => Ok(Portable::Big(2_147_483_647)),
        4 => Ok(Portable::Big(-2_147_483_648)),
        5 => Ok(Portable::Big(2_147_483_648)),
        6 => Ok(Portable::Big(-2_147_483_649)),
        7 => Ok(Portable::Words(Text::new(alloc))),
        8 => Ok(Portable::Node(3)),
        9 => Ok(Portable::Port(3)),
        10 => Ok(Portable::Pairs(PairList::new(alloc))),
        11 => Ok(Portable::Items(ItemList::new(alloc))),
        12 => array_of(alloc, [Portable::Small(1), Portable::Big(2)]),
        13 => array_of(alloc, [Portable::Node(3), Portable::Nothing]),
        14 => array_of(alloc, [Portable::Truth(true), Portable::Small(1)]),
        _ => array_of(
            alloc,
            [
                Portable::Words(Text::new(alloc)),
                Portable::Words(Text::new(alloc)),
            ],
        ),
    }
}

/// What a field of each type holds after a write of that value, in the order of the types, with `-` for no fit.
fn held(number: usize) -> &'static str {
    match number {
        0 => "- - - - invalid invalid invalid invalid invalid invalid invalid ",
        1 => "- - true - - - - - - - - ",
        2 => "-7 -7& - - - - - - - - - ",
        3 => "2147483647 2147483647& - - - - - - - - - ",
        4 => "-2147483648 -2147483648& - - - - - - - - - ",
        5 => "- 2147483648& - - - - - - - - - ",
        6 => "- -2147483649& - - - - - - - - - ",
        7 => "- - - \"\" - - - - - - - ",
        8 => "- - - - node 3 - - - - - - ",
        9 => "- - - - - - - - - - - ",
        10 => "- - - - - {} - - - - - ",
        11 => "- - - - - - [] [] [] [] [] ",
        12 => "- - - - - - [1, 2&] - [1, 2] - - ",
        13 => "- - - - - - [node 3, invalid] - - - [node 3, invalid] ",
        14 => "- - - - - - [true, 1] - - - - ",
        _ => "- - - - - - [\"\", \"\"] [\"\", \"\"] - - - ",
    }
}

fn push_converted(
    alloc: Global,
    t: FieldType,
    value: &Portable,
    out: &mut Text,
) -> Result<(), NoMemory> {
    match convert(alloc, t, value)? {
        Some(fitted) => out.push_str(text_of_value(alloc, &fitted)?.as_str())?,
        None => out.push_str("-")?,
    }
    out.push_str(" ")
}

#[test]
fn each_type_takes_its_kinds_of_value(rt: HostRuntime) -> Result<(), Fail> {
    for number in 0..16 {
        let value = value(rt.alloc(), number)?;
        let mut text = Text::new(rt.alloc());
        for t in TYPES {
            push_converted(rt.alloc(), t, &value, &mut text)?;
        }
        assert_eq!(rt; text.as_str(), held(number));
    }
    Ok(())
}

fn push_read(alloc: Global, t: FieldType, attribute: &str, out: &mut Text) -> Result<(), NoMemory> {
    match read_attribute(alloc, t, attribute.as_bytes()) {
        Ok(value) => out.push_str(text_of_value(alloc, &value)?.as_str())?,
        Err(AttributeAnswer::BadText) => out.push_str("-")?,
        Err(AttributeAnswer::NoMemory) => return Err(NoMemory),
    }
    out.push_str(" ")
}

fn check_read(
    rt: &impl Abort,
    alloc: Global,
    attribute: &str,
    wanted: &str,
) -> Result<(), NoMemory> {
    let mut text = Text::new(alloc);
    for t in TYPES {
        push_read(alloc, t, attribute, &mut text)?;
    }
    assert_eq!(rt; text.as_str(), wanted);
    Ok(())
}

#[test]
fn each_type_reads_its_attribute_texts(rt: HostRuntime) -> Result<(), Fail> {
    let alloc = rt.alloc();
    check_read(&rt, alloc, "", "- - - \"\" invalid invalid [] [] [] [] [] ")?;
    check_read(&rt, alloc, "-007", "-7 -7& - \"-007\" - - - - - - - ")?;
    check_read(
        &rt,
        alloc,
        "+2147483647",
        "2147483647 2147483647& - \"+2147483647\" - - - - - - - ",
    )?;
    check_read(
        &rt,
        alloc,
        "-2147483649",
        "- -2147483649& - \"-2147483649\" - - - - - - - ",
    )?;
    check_read(
        &rt,
        alloc,
        "9223372036854775808",
        "- - - \"9223372036854775808\" - - - - - - - ",
    )?;
    check_read(&rt, alloc, "-", "- - - \"-\" - - - - - - - ")?;
    check_read(&rt, alloc, "1 ", "- - - \"1 \" - - - - - - - ")?;
    check_read(&rt, alloc, "True", "- - true \"True\" - - - - - - - ")?;
    check_read(&rt, alloc, "FALSE", "- - false \"FALSE\" - - - - - - - ")?;
    check_read(&rt, alloc, "invalid", "- - - \"invalid\" - - - - - - - ")?;
    Ok(())
}

#[test]
fn a_field_opens_with_what_its_type_reads_of_nothing(rt: HostRuntime) -> Result<(), Fail> {
    let mut text = Text::new(rt.alloc());
    for t in TYPES {
        push_converted(rt.alloc(), t, &opening(rt.alloc(), t), &mut text)?;
    }
    assert_eq!(rt;
        text.as_str(),
        "0 0& false \"\" invalid invalid [] [] [] [] [] "
    );
    Ok(())
}
