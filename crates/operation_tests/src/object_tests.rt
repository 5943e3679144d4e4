//! What operations on arrays, associative arrays and messages answer, and what they leave.
use crate::rows::check;
use brs_builtins::Operation;
use object_operations::{ArrayMethod, MapMethod, MessageMethod};
use std::test::Fail;

#[test]
fn items_are_put_in_and_taken_out(rt: HostRuntime) -> Result<(), Fail> {
    let alloc = rt.alloc();
    check(
        &rt,
        alloc,
        Operation::ArrayMethod(ArrayMethod::Push),
        &[
            "[]|1 = invalid > [1]",
            "[1]|'a = invalid > [1, \"a\"]",
            "[1]|[2] = invalid > [1, [2]]",
            "[1] = E6 > [1]",
            "[1]|2|3 = E6 > [1]",
            "{}|1 = E4",
            "{} = E4",
            "invalid = E7",
            " = E6",
        ],
    )?;
    check(
        &rt,
        alloc,
        Operation::ArrayMethod(ArrayMethod::Unshift),
        &[
            "[1]|2 = invalid > [2, 1]",
            "[]|invalid = invalid > [invalid]",
            "[1] = E6 > [1]",
            "'a|1 = E4",
        ],
    )?;
    check(
        &rt,
        alloc,
        Operation::ArrayMethod(ArrayMethod::Pop),
        &[
            "[1 2 3] = 3 > [1, 2]",
            "['a] = 'a > []",
            "[] = invalid > []",
            "[1]|1 = E6 > [1]",
            "5|1 = E4",
            "invalid|1 = E7",
        ],
    )?;
    check(
        &rt,
        alloc,
        Operation::ArrayMethod(ArrayMethod::Shift),
        &[
            "[1 2 3] = 1 > [2, 3]",
            "[] = invalid > []",
            "[1]|1 = E6 > [1]",
        ],
    )?;
    check(
        &rt,
        alloc,
        Operation::ArrayMethod(ArrayMethod::Peek),
        &[
            "[1 2 3] = 3 > [1, 2, 3]",
            "[] = invalid > []",
            "message = E4",
        ],
    )
}

#[test]
fn items_are_deleted_and_counted(rt: HostRuntime) -> Result<(), Fail> {
    let alloc = rt.alloc();
    check(
        &rt,
        alloc,
        Operation::ArrayMethod(ArrayMethod::Delete),
        &[
            "[1 2 3]|1 = true > [1, 3]",
            "[1 2 3]|0& = true > [2, 3]",
            "[1 2 3]|2 = true > [1, 2]",
            "[1 2 3]|3 = false > [1, 2, 3]",
            "[1 2 3]|-1 = false > [1, 2, 3]",
            "[1]|9223372036854775807& = false > [1]",
            "[1]|-9223372036854775808& = false > [1]",
            "[1]|'0 = E2 > [1]",
            "[1]|'0|0 = E6 > [1]",
            "[1] = E6",
            "{}|'0 = E4",
        ],
    )?;
    check(
        &rt,
        alloc,
        Operation::ArrayMethod(ArrayMethod::Count),
        &["[1 2] = 2 > [1, 2]", "[] = 0", "[]|1 = E6", "port = E4"],
    )?;
    check(
        &rt,
        alloc,
        Operation::ArrayMethod(ArrayMethod::Clear),
        &[
            "[1 'a] = invalid > []",
            "[] = invalid > []",
            "[1]|1 = E6 > [1]",
        ],
    )?;
    check(
        &rt,
        alloc,
        Operation::ArrayMethod(ArrayMethod::Append),
        &[
            "[1]|[2 3] = invalid > [1, 2, 3]",
            "[1 2]|same = invalid > [1, 2, 1, 2]",
            "[]|[] = invalid > []",
            "[1]|{} = E2 > [1]",
            "[1]|2 = E2 > [1]",
            "[1]|[2]|[3] = E6 > [1]",
            "[1] = E6",
        ],
    )
}

#[test]
fn keys_have_no_case(rt: HostRuntime) -> Result<(), Fail> {
    let alloc = rt.alloc();
    check(
        &rt,
        alloc,
        Operation::MapMethod(MapMethod::AddReplace),
        &[
            "{}|'Size|3 = invalid > {size: 3}",
            "{size:3}|'sIZE|4 = invalid > {size: 4}",
            "{b:2}|'a|1 = invalid > {a: 1, b: 2}",
            "{b:2}|'c|3 = invalid > {b: 2, c: 3}",
            "{b:2}|'É|3 = invalid > {b: 2, É: 3}",
            "{}|'|1 = invalid > {: 1}",
            "{a:1}|1|1 = E2 > {a: 1}",
            "{a:1}|'b = E6 > {a: 1}",
            "{a:1} = E6",
            "[]|'a|1 = E4",
            "invalid|'a|1 = E7",
        ],
    )?;
    check(
        &rt,
        alloc,
        Operation::MapMethod(MapMethod::Lookup),
        &[
            "{size:3}|'SIZE = 3 > {size: 3}",
            "{size:3}|'siz = invalid",
            "{é:3}|'É = invalid",
            "{size:3}|3 = E2",
            "{size:3} = E6",
            "[]|'a = E4",
        ],
    )?;
    check(
        &rt,
        alloc,
        Operation::MapMethod(MapMethod::DoesExist),
        &[
            "{size:invalid}|'SIZE = true",
            "{size:3}|'siz = false",
            "{}|' = false",
            "{}|invalid = E2",
            "{}|'a|'a = E6",
        ],
    )?;
    check(
        &rt,
        alloc,
        Operation::MapMethod(MapMethod::Delete),
        &[
            "{a:1 b:2 c:3}|'B = true > {a: 1, c: 3}",
            "{a:1}|'b = false > {a: 1}",
            "{a:1}|1 = E2 > {a: 1}",
            "{a:1} = E6",
        ],
    )
}

#[test]
fn keys_are_counted_listed_and_appended(rt: HostRuntime) -> Result<(), Fail> {
    let alloc = rt.alloc();
    check(
        &rt,
        alloc,
        Operation::MapMethod(MapMethod::Count),
        &["{a:1 b:2} = 2", "{} = 0", "{}|1 = E6", "[] = E4"],
    )?;
    check(
        &rt,
        alloc,
        Operation::MapMethod(MapMethod::Clear),
        &["{a:1 b:2} = invalid > {}", "{a:1}|1 = E6 > {a: 1}"],
    )?;
    check(
        &rt,
        alloc,
        Operation::Keys,
        &[
            "{} = []",
            "{a:1 b:'x c:3} = [\"a\", \"b\", \"c\"] > {a: 1, b: \"x\", c: 3}",
            "{a:1}|1 = E6",
            "[] = E4",
            "[]|1 = E4",
            "invalid|1 = E7",
            "node = E4",
            " = E6",
        ],
    )?;
    check(
        &rt,
        alloc,
        Operation::AppendEntries,
        &[
            "{}|{} = invalid > {}",
            "{a:1 c:3}|{b:2 c:7} = invalid > {a: 1, b: 2, c: 7}",
            "{a:1 b:2}|same = invalid > {a: 1, b: 2}",
            "{a:1}|[] = E2 > {a: 1}",
            "{a:1}|invalid = E2 > {a: 1}",
            "{a:1} = E6 > {a: 1}",
            "{a:1}|{b:2}|{c:3} = E6 > {a: 1}",
            "[]|{} = E4",
            "[] = E4",
            "invalid = E7",
            " = E6",
        ],
    )
}

#[test]
fn objects_are_made_by_name(rt: HostRuntime) -> Result<(), Fail> {
    check(
        &rt,
        rt.alloc(),
        Operation::CreateObject,
        &[
            "'roArray = []",
            "'ROARRAY|3|true = []",
            "'roAssociativeArray = {}",
            "'ROASSOCIATIVEARRAY = {}",
            "'roAssociativeArray|1 = E6",
            "'roDateTime = invalid",
            "'roDateTime|1|2 = invalid",
            "' = invalid",
            "1 = E2",
            "1|2 = E2",
            "invalid = E2",
            "[] = E2",
            " = E6",
        ],
    )
}

#[test]
fn messages_tell_their_field_their_node_and_their_data(rt: HostRuntime) -> Result<(), Fail> {
    let alloc = rt.alloc();
    check(
        &rt,
        alloc,
        Operation::MessageMethod(MessageMethod::Field),
        &[
            "message = 'itemfocused > message",
            "message|1 = E6",
            "{} = E4",
            "{}|1 = E4",
            "invalid = E7",
            " = E6",
        ],
    )?;
    check(
        &rt,
        alloc,
        Operation::MessageMethod(MessageMethod::Id),
        &["message = 'list", "node = E4"],
    )?;
    check(
        &rt,
        alloc,
        Operation::MessageMethod(MessageMethod::Node),
        &["message = node 7", "'message = E4"],
    )?;
    check(
        &rt,
        alloc,
        Operation::MessageData,
        &[
            "message = [1, \"a\"] > message",
            "message|1 = E6",
            "[] = E4",
            "invalid|1 = E7",
            " = E6",
        ],
    )
}

#[test]
fn members_are_read_and_written(rt: HostRuntime) -> Result<(), Fail> {
    let alloc = rt.alloc();
    check(
        &rt,
        alloc,
        Operation::ReadMember,
        &[
            "{a:1}|'A = 1",
            "{a:1}|'b = invalid",
            "[]|'count = E4",
            "'a|'len = E4",
            "1|'a = E4",
            "message|'a = E4",
            "invalid|'a = E7",
            "{a:1} = E6",
        ],
    )?;
    check(
        &rt,
        alloc,
        Operation::WriteMember,
        &[
            "{a:1}|'A|2 = invalid > {a: 2}",
            "{}|'b|[1] = invalid > {b: [1]}",
            "[]|'a|1 = E4 > []",
            "1|'a|1 = E4",
            "function|'a|1 = E4",
            "invalid|'a|1 = E7",
            "{}|'a = E6",
        ],
    )
}

#[test]
fn indexes_are_read_and_written(rt: HostRuntime) -> Result<(), Fail> {
    let alloc = rt.alloc();
    check(
        &rt,
        alloc,
        Operation::ReadIndex,
        &[
            "[1 2]|0 = 1",
            "[1 2]|1& = 2",
            "[1 2]|2 = invalid",
            "[1 2]|-1 = invalid",
            "[1]|-9223372036854775808& = invalid",
            "[1]|9223372036854775807& = invalid",
            "[1]|'0 = E2",
            "{a:1}|'A = 1",
            "{a:1}|0 = E2",
            "'a|0 = E2",
            "1|0 = E2",
            "message|0 = E2",
            "invalid|'x = E7",
            "[] = E6",
        ],
    )?;
    check(
        &rt,
        alloc,
        Operation::WriteIndex,
        &[
            "[1 2]|0|7 = invalid > [7, 2]",
            "[1]|1&|7 = invalid > [1, 7]",
            "[]|2|7 = invalid > [invalid, invalid, 7]",
            "[1]|-1|7 = E2 > [1]",
            "[1]|-9223372036854775808&|7 = E2 > [1]",
            "[1]|1048576|7 = E12 > [1]",
            "[1]|9223372036854775807&|7 = E12 > [1]",
            "[1]|1048575|7 = invalid > large",
            "[1]|'0|7 = E2 > [1]",
            "{a:1}|'b|2 = invalid > {a: 1, b: 2}",
            "{a:1}|0|2 = E2 > {a: 1}",
            "'a|0|2 = E2",
            "invalid|0|2 = E7",
            "[]|0 = E6",
        ],
    )
}
