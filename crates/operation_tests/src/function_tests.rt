//! What functions and methods give, at each bound: the expected values are worked out by hand.
use crate::plain_tests::{check, value};
use plain_operations::{
    PlainFunction, PlainMethod, Shape, argue, call_function, call_method, one_shape, three_shape,
    two_shape,
};
use std::alloc::Global;
use std::process::Abort;
use std::test::Fail;

/// How many arguments a row has.
fn count(arguments: &str) -> usize {
    if arguments.is_empty() {
        return 0;
    }
    match arguments.split_once('|') {
        None => 1,
        Some((_, rest)) => match rest.split_once('|') {
            None => 2,
            Some(_) => 3,
        },
    }
}

fn shape(arguments: &str) -> Shape<'_> {
    if arguments.is_empty() {
        return Shape::Mixed;
    }
    match arguments.split_once('|') {
        None => one_shape(value(arguments)),
        Some((first, rest)) => match rest.split_once('|') {
            None => two_shape(argue(value(first)), argue(value(rest))),
            Some((second, third)) => three_shape(
                argue(value(first)),
                argue(value(second)),
                argue(value(third)),
            ),
        },
    }
}

/// Each row has at most three arguments and what the function gives of them.
fn check_function(
    rt: &impl Abort,
    alloc: Global,
    function: PlainFunction,
    rows: &[&str],
) -> Result<(), Fail> {
    for row in rows {
        if let Some((arguments, wanted)) = row.split_once(" = ") {
            let outcome = call_function(alloc, function, count(arguments), shape(arguments))?;
            check(rt, alloc, outcome, wanted)?;
        }
    }
    Ok(())
}

/// Each row has a value, and what the method gives of it with this number of arguments.
fn check_method(
    rt: &impl Abort,
    alloc: Global,
    method: PlainMethod,
    count: usize,
    rows: &[&str],
) -> Result<(), Fail> {
    for row in rows {
        if let Some((receiver, wanted)) = row.split_once(" = ") {
            check(
                rt,
                alloc,
                call_method(alloc, method, value(receiver), count)?,
                wanted,
            )?;
        }
    }
    Ok(())
}

#[test]
fn numbers_of_characters_and_characters_of_numbers(rt: HostRuntime) -> Result<(), Fail> {
    let alloc = rt.alloc();
    check_function(
        &rt,
        alloc,
        PlainFunction::Abs,
        &[
            "-5 = 5",
            "5 = 5",
            "-2147483648 = -2147483648",
            "-5& = 5&",
            "-9223372036854775808& = -9223372036854775808&",
            "'a = E2",
            " = E6",
        ],
    )?;
    check_function(
        &rt,
        alloc,
        PlainFunction::Asc,
        &[
            "' = 0",
            "'A = 65",
            "'é = 233",
            "'€ = 8364",
            "'😀a = 128512",
            "1 = E2",
        ],
    )?;
    check_function(
        &rt,
        alloc,
        PlainFunction::Chr,
        &[
            "65 = 'A",
            "0 = '",
            "-1 = '",
            "233 = 'é",
            "55295 = '\u{d7ff}",
            "55296 = '",
            "57343 = '",
            "57344 = '\u{e000}",
            "128512& = '😀",
            "1114111 = '\u{10ffff}",
            "1114112 = '",
            "4294967361& = '",
            "'A = E2",
        ],
    )?;
    check_function(
        &rt,
        alloc,
        PlainFunction::Len,
        &["' = 0", "'banana = 6", "'aé€😀 = 4", "5 = E2", "'a|'b = E6"],
    )?;
    Ok(())
}

#[test]
fn characters_are_taken_from_both_ends(rt: HostRuntime) -> Result<(), Fail> {
    let alloc = rt.alloc();
    check_function(
        &rt,
        alloc,
        PlainFunction::Left,
        &[
            "'abc|-1 = '",
            "'abc|0 = '",
            "'abc|2 = 'ab",
            "'abc|3 = 'abc",
            "'abc|9223372036854775807& = 'abc",
            "'é€😀|2 = 'é€",
            "'abc = E6",
            "1 = E6",
            "1|2 = E2",
            "'a|'b = E2",
        ],
    )?;
    check_function(
        &rt,
        alloc,
        PlainFunction::Right,
        &[
            "'abc|2 = 'bc",
            "'abc|0 = '",
            "'abc|-5 = '",
            "'abc|4 = 'abc",
            "'é€😀|1& = '😀",
            "invalid|1 = E2",
            "'a|1|1 = E6",
        ],
    )?;
    check_function(
        &rt,
        alloc,
        PlainFunction::LCase,
        &["'ÀBc[1 = 'Àbc[1", "' = '", "1 = E2"],
    )?;
    check_function(
        &rt,
        alloc,
        PlainFunction::UCase,
        &["'àbC{z = 'àBC{Z", " = E6"],
    )?;
    Ok(())
}

#[test]
fn places_are_counted_from_one(rt: HostRuntime) -> Result<(), Fail> {
    let alloc = rt.alloc();
    check_function(
        &rt,
        alloc,
        PlainFunction::Mid,
        &[
            "'banana|2|3 = 'ana",
            "'banana|2 = 'anana",
            "'banana|0 = 'banana",
            "'banana|-1|2 = 'ba",
            "'banana|6 = 'a",
            "'banana|7 = '",
            "'banana|8|1 = '",
            "'banana|2|0 = '",
            "'banana|2|-1 = '",
            "'é€😀a|2|2 = '€😀",
            "'banana|3&|9223372036854775807& = 'nana",
            "'a = E6",
            "1|2 = E2",
            "'a|1|'b = E2",
        ],
    )?;
    check_function(
        &rt,
        alloc,
        PlainFunction::Instr,
        &[
            "3|'banana|'an = 4",
            "1|'banana|'an = 2",
            "0|'banana|'an = 2",
            "-9|'banana|'an = 2",
            "5|'banana|'an = 0",
            "7|'banana|' = 7",
            "8|'banana|' = 0",
            "1|'|' = 1",
            "1|'|'a = 0",
            "2|'é€é|'é = 3",
            "1|'é€é|'€é = 2",
            "2&|'aaa|'aa = 2",
            "9223372036854775807&|'a|'a = 0",
            "'a|'b|'c = E2",
            "1|'a = E6",
        ],
    )?;
    Ok(())
}

#[test]
fn numbers_are_written_and_read(rt: HostRuntime) -> Result<(), Fail> {
    let alloc = rt.alloc();
    check_function(
        &rt,
        alloc,
        PlainFunction::Str,
        &[
            "5 = ' 5",
            "-5 = '-5",
            "0 = ' 0",
            "9223372036854775807& = ' 9223372036854775807",
            "'5 = E2",
        ],
    )?;
    check_function(
        &rt,
        alloc,
        PlainFunction::StrI,
        &["-2147483648 = '-2147483648", "7& = ' 7", "true = E2"],
    )?;
    check_function(
        &rt,
        alloc,
        PlainFunction::StrToI,
        &[
            "' -12x = -12",
            "'- 5 = 0",
            "'+7 = 7",
            "' = 0",
            "'    = 0",
            "'\t5 = 0",
            "'4294967295 = -1",
            "'-4294967297 = -1",
            "'2147483648 = -2147483648",
            "'--5 = 0",
            "'+-5 = 0",
            "'007 = 7",
            "'12 3 = 12",
            "'99999999999999999999 = 1661992959",
            "5 = E2",
        ],
    )?;
    Ok(())
}

#[test]
fn methods_are_told_by_the_value_that_they_are_called_on(rt: HostRuntime) -> Result<(), Fail> {
    let alloc = rt.alloc();
    check_method(
        &rt,
        alloc,
        PlainMethod::ToStr,
        0,
        &[
            "true = 'true",
            "false = 'false",
            "7 = '7",
            "-7 = '-7",
            "5& = '5",
            "'é = 'é",
            "' = '",
            "invalid = E7",
            "function = E4",
        ],
    )?;
    check_method(
        &rt,
        alloc,
        PlainMethod::ToStr,
        1,
        &["invalid = E7", "5 = E6"],
    )?;
    check_method(&rt, alloc, PlainMethod::ToStr, 2, &["other = E4"])?;
    check_method(
        &rt,
        alloc,
        PlainMethod::ToInt,
        0,
        &["' 12 = 12", "'x = 0", "5 = E4"],
    )?;
    check_method(&rt, alloc, PlainMethod::ToInt, 1, &["'1 = E6"])?;
    check_method(&rt, alloc, PlainMethod::Len, 0, &["'é😀 = 2", "true = E4"])?;
    check_method(&rt, alloc, PlainMethod::Len, 2, &["' = E6"])?;
    check_method(
        &rt,
        alloc,
        PlainMethod::Trim,
        0,
        &[
            "' \t a b\t  = 'a b",
            "' = '",
            "' \t  = '",
            "'é = 'é",
            "'\u{a0}a  = '\u{a0}a",
            "'\na  = '\na",
            "invalid = E7",
            "5& = E4",
        ],
    )?;
    Ok(())
}
