//! What operators give, at each bound: the expected values are worked out by hand.
use crate::plain_tests::{check, long_text, value};
use plain_operations::{LONGEST_TEXT, Operand, Operator, UnaryOperator, operate, operate_alone};
use std::alloc::Global;
use std::process::Abort;
use std::test::Fail;

/// Each row has two operands and what the operator gives of them.
fn check_operator(
    rt: &impl Abort,
    alloc: Global,
    operator: Operator,
    rows: &[&str],
) -> Result<(), Fail> {
    for row in rows {
        if let Some((operands, wanted)) = row.split_once(" = ") {
            if let Some((left, right)) = operands.split_once('|') {
                let outcome = operate(alloc, operator, value(left), value(right))?;
                check(rt, alloc, outcome, wanted)?;
            }
        }
    }
    Ok(())
}

fn check_alone(
    rt: &impl Abort,
    alloc: Global,
    operator: UnaryOperator,
    rows: &[&str],
) -> Result<(), Fail> {
    for row in rows {
        if let Some((operand, wanted)) = row.split_once(" = ") {
            check(rt, alloc, operate_alone(operator, value(operand)), wanted)?;
        }
    }
    Ok(())
}

#[test]
fn sums_differences_and_products_wrap(rt: HostRuntime) -> Result<(), Fail> {
    let alloc = rt.alloc();
    check_operator(
        &rt,
        alloc,
        Operator::Add,
        &[
            "2|3 = 5",
            "2147483647|1 = -2147483648",
            "2147483647|1& = 2147483648&",
            "9223372036854775807&|1 = -9223372036854775808&",
            "'ab|'é = 'abé",
            "'|' = '",
            "'a|1 = E2",
            "invalid|1 = E2",
            "true|true = E2",
        ],
    )?;
    check_operator(
        &rt,
        alloc,
        Operator::Subtract,
        &[
            "-2147483648|1 = 2147483647",
            "5|7& = -2&",
            "-9223372036854775808&|1& = 9223372036854775807&",
            "'a|'a = E2",
        ],
    )?;
    check_operator(
        &rt,
        alloc,
        Operator::Multiply,
        &[
            "65536|65536 = 0",
            "65536|65536& = 4294967296&",
            "-2147483648|-1 = -2147483648",
            "function|2 = E2",
        ],
    )?;
    check_alone(
        &rt,
        alloc,
        UnaryOperator::Negate,
        &[
            "5 = -5",
            "-2147483648 = -2147483648",
            "5& = -5&",
            "-9223372036854775808& = -9223372036854775808&",
            "'a = E2",
            "true = E2",
        ],
    )?;
    Ok(())
}

#[test]
fn quotients_are_rounded_toward_zero(rt: HostRuntime) -> Result<(), Fail> {
    let alloc = rt.alloc();
    check_operator(
        &rt,
        alloc,
        Operator::Divide,
        &[
            "7|2 = 3",
            "-7|2 = -3",
            "7|-2 = -3",
            "-2147483648|-1 = -2147483648",
            "-2147483648|-1& = 2147483648&",
            "-9223372036854775808&|-1 = -9223372036854775808&",
            "1|0 = E3",
            "1&|0 = E3",
            "'a|0 = E2",
        ],
    )?;
    check_operator(
        &rt,
        alloc,
        Operator::Remainder,
        &[
            "7|2 = 1",
            "-7|2 = -1",
            "7|-2 = 1",
            "-7|-2 = -1",
            "-2147483648|-1 = 0",
            "-9223372036854775808&|-1& = 0&",
            "5|0 = E3",
            "5&|0& = E3",
            "5|3& = 2&",
            "5|invalid = E2",
        ],
    )?;
    Ok(())
}

#[test]
fn shifts_keep_the_width_of_the_left_side(rt: HostRuntime) -> Result<(), Fail> {
    let alloc = rt.alloc();
    check_operator(
        &rt,
        alloc,
        Operator::ShiftLeft,
        &[
            "1|31 = -2147483648",
            "1|32 = 0",
            "1|-1 = 0",
            "1|63 = 0",
            "1&|32 = 4294967296&",
            "1&|63 = -9223372036854775808&",
            "1&|64 = 0&",
            "1&|-1& = 0&",
            "1|3& = 8",
            "3|31 = -2147483648",
            "1|4294967296& = 0",
            "true|1 = E2",
            "1|true = E2",
        ],
    )?;
    check_operator(
        &rt,
        alloc,
        Operator::ShiftRight,
        &[
            "8|2 = 2",
            "-1|0 = -1",
            "-1|1 = 2147483647",
            "-1|31 = 1",
            "-1|32 = 0",
            "-1|-1 = 0",
            "-1&|1 = 9223372036854775807&",
            "-1&|63 = 1&",
            "-1&|64& = 0&",
            "'1|1 = E2",
        ],
    )?;
    Ok(())
}

#[test]
fn bits_and_booleans_are_joined(rt: HostRuntime) -> Result<(), Fail> {
    let alloc = rt.alloc();
    check_operator(
        &rt,
        alloc,
        Operator::And,
        &[
            "true|false = false",
            "true|true = true",
            "12|10 = 8",
            "-1|255& = 255&",
            "true|1 = E2",
            "invalid|true = E2",
        ],
    )?;
    check_operator(
        &rt,
        alloc,
        Operator::Or,
        &[
            "true|false = true",
            "false|false = false",
            "12|10 = 14",
            "1|2& = 3&",
            "'a|'b = E2",
        ],
    )?;
    check_alone(
        &rt,
        alloc,
        UnaryOperator::Not,
        &[
            "true = false",
            "false = true",
            "0 = -1",
            "5 = -6",
            "0& = -1&",
            "invalid = E2",
            "'a = E2",
        ],
    )?;
    Ok(())
}

#[test]
fn numbers_are_compared_by_value_and_texts_by_bytes(rt: HostRuntime) -> Result<(), Fail> {
    let alloc = rt.alloc();
    check_operator(
        &rt,
        alloc,
        Operator::Less,
        &[
            "1|2 = true",
            "2|2 = false",
            "2147483647|2147483648& = true",
            "-1|0& = true",
            "'B|'a = true",
            "'a|'ab = true",
            "'|' = false",
            "true|false = E2",
            "1|'a = E2",
            "invalid|invalid = E2",
        ],
    )?;
    check_operator(
        &rt,
        alloc,
        Operator::Greater,
        &[
            "3|2 = true",
            "'é|'z = true",
            "0&|0 = false",
            "other|other = E2",
        ],
    )?;
    check_operator(
        &rt,
        alloc,
        Operator::LessOrEqual,
        &[
            "2|2& = true",
            "3|2 = false",
            "'a|'a = true",
            "'b|'ab = false",
            "true|true = E2",
        ],
    )?;
    check_operator(
        &rt,
        alloc,
        Operator::GreaterOrEqual,
        &[
            "3|4 = false",
            "4|4 = true",
            "'ab|'b = false",
            "'b|'ab = true",
            "invalid|1 = E2",
        ],
    )?;
    Ok(())
}

#[test]
fn anything_may_stand_beside_invalid(rt: HostRuntime) -> Result<(), Fail> {
    let alloc = rt.alloc();
    check_operator(
        &rt,
        alloc,
        Operator::Equal,
        &[
            "1|1& = true",
            "1|2 = false",
            "4294967296&|0 = false",
            "'a|'A = false",
            "'é|'é = true",
            "true|true = true",
            "true|false = false",
            "false|false = true",
            "invalid|invalid = true",
            "invalid|0 = false",
            "'a|invalid = false",
            "function|invalid = false",
            "invalid|other = false",
            "1|'1 = E2",
            "true|1 = E2",
            "other|other = E2",
        ],
    )?;
    check_operator(
        &rt,
        alloc,
        Operator::NotEqual,
        &[
            "1|2& = true",
            "1|1 = false",
            "'a|'b = true",
            "true|true = false",
            "false|true = true",
            "invalid|invalid = false",
            "other|invalid = true",
            "function|1 = E2",
        ],
    )?;
    Ok(())
}

#[test]
fn a_text_grows_to_its_last_character_and_no_further(rt: HostRuntime) -> Result<(), Fail> {
    let alloc = rt.alloc();
    let long = long_text(alloc, LONGEST_TEXT - 1)?;
    let longest = operate(
        alloc,
        Operator::Add,
        value("'€"),
        Operand::Words(long.as_str()),
    )?;
    check(&rt, alloc, longest, "3145728 bytes")?;
    let longer = operate(
        alloc,
        Operator::Add,
        Operand::Words(long.as_str()),
        value("'ab"),
    )?;
    check(&rt, alloc, longer, "E12")?;
    Ok(())
}
