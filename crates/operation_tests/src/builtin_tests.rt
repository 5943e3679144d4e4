//! What operations answer by their one table: operators, functions and methods of plain values, the names of types, and
//! the names of operations.
use crate::rows::check;
use brs_builtins::{Operation, Receiver, function_named, method_named};
use object_operations::{ArrayMethod, MapMethod, MessageMethod};
use plain_operations::{Operator, PlainFunction, PlainMethod, UnaryOperator};
use std::test::Fail;

#[test]
fn operators_take_values_of_a_heap(rt: HostRuntime) -> Result<(), Fail> {
    let alloc = rt.alloc();
    check(
        &rt,
        alloc,
        Operation::Operator(Operator::Subtract),
        &[
            "5|8 = -3",
            "5|7& = -2&",
            "-2147483648|1 = 2147483647",
            "'5|7 = E2",
            "5|'7 = E2",
            "[]|{} = E2",
            "message|1 = E2",
            "5 = E6",
            "5|7|9 = E6",
            " = E6",
        ],
    )?;
    check(
        &rt,
        alloc,
        Operation::Operator(Operator::Add),
        &[
            "'ab|'cd = 'abcd",
            "'ab|same = 'abab",
            "'ab|1 = E2",
            "node|1 = E2",
            "port|port = E2",
        ],
    )?;
    check(
        &rt,
        alloc,
        Operation::Operator(Operator::Divide),
        &["-7|2 = -3", "1|0 = E3", "'a|0 = E2", "1|0|0 = E6"],
    )?;
    check(
        &rt,
        alloc,
        Operation::Operator(Operator::Equal),
        &[
            "invalid|invalid = true",
            "invalid|[] = false",
            "{}|invalid = false",
            "function|invalid = false",
            "message|invalid = false",
            "'a|'a = true",
            "[]|same = E2",
            "node|node = E2",
        ],
    )?;
    check(
        &rt,
        alloc,
        Operation::UnaryOperator(UnaryOperator::Not),
        &[
            "true = false",
            "0 = -1",
            "'a = E2",
            "[] = E2",
            " = E6",
            "1|2 = E6",
        ],
    )
}

#[test]
fn functions_and_methods_take_values_of_a_heap(rt: HostRuntime) -> Result<(), Fail> {
    let alloc = rt.alloc();
    check(
        &rt,
        alloc,
        Operation::Function(PlainFunction::Mid),
        &[
            "'banana|2|3 = 'ana",
            "'banana|3& = 'nana",
            "'banana|'2 = E2",
            "[]|2 = E2",
            "'banana = E6",
            " = E6",
        ],
    )?;
    check(
        &rt,
        alloc,
        Operation::Function(PlainFunction::Instr),
        &["3|'banana|'an = 4", "[]|'banana|'an = E2"],
    )?;
    check(
        &rt,
        alloc,
        Operation::Function(PlainFunction::Left),
        &["'abc|-1 = '", "'abc|2 = 'ab", "{}|1 = E2"],
    )?;
    check(
        &rt,
        alloc,
        Operation::Function(PlainFunction::Len),
        &["'né = 2", "screen = E2"],
    )?;
    check(
        &rt,
        alloc,
        Operation::Function(PlainFunction::StrToI),
        &["' -12x = -12", "invalid = E2"],
    )?;
    check(
        &rt,
        alloc,
        Operation::PlainMethod(PlainMethod::ToStr),
        &[
            "-7 = '-7",
            "7& = '7",
            "true = 'true",
            "invalid = E7",
            "invalid|1 = E7",
            "[] = E4",
            "[]|1 = E4",
            "node = E4",
            "'a|'b = E6",
            " = E6",
        ],
    )?;
    check(
        &rt,
        alloc,
        Operation::PlainMethod(PlainMethod::ToInt),
        &["' -12x = -12", "5 = E4", "5|1 = E4", "'5|1 = E6"],
    )
}

#[test]
fn each_kind_of_value_has_the_name_of_its_type(rt: HostRuntime) -> Result<(), Fail> {
    check(
        &rt,
        rt.alloc(),
        Operation::TypeName,
        &[
            "invalid = 'Invalid",
            "true = 'Boolean",
            "1 = 'Integer",
            "1& = 'LongInteger",
            "' = 'String",
            "[] = 'roArray",
            "{} = 'roAssociativeArray",
            "function = 'Function",
            "node = 'roSGNode",
            "port = 'roMessagePort",
            "message = 'roSGNodeEvent",
            "screen = 'roSGScreen",
            " = E6",
            "1|1 = E6",
        ],
    )
}

#[test]
fn names_lead_to_functions(rt: HostRuntime) {
    let rows: [(&[u8], Option<Operation>); 6] = [
        (b"mid", Some(Operation::Function(PlainFunction::Mid))),
        (b"type", Some(Operation::TypeName)),
        (b"createobject", Some(Operation::CreateObject)),
        (b"wait", None),
        (b"Mid", None),
        (b"", None),
    ];
    for (name, operation) in rows {
        assert_eq!(rt; function_named(name), operation);
    }
}

#[test]
fn names_lead_to_methods(rt: HostRuntime) {
    let count = Operation::ArrayMethod(ArrayMethod::Count);
    let keys = Operation::MapMethod(MapMethod::Count);
    let id = Operation::MessageMethod(MessageMethod::Id);
    let length = Operation::PlainMethod(PlainMethod::Len);
    let append = Operation::ArrayMethod(ArrayMethod::Append);
    let rows: [(Receiver, &[u8], Option<Operation>); 14] = [
        (Receiver::Array, b"count", Some(count)),
        (Receiver::Array, b"append", Some(append)),
        (Receiver::Array, b"keys", None),
        (Receiver::Array, b"lookup", None),
        (Receiver::Pairs, b"count", Some(keys)),
        (Receiver::Pairs, b"keys", Some(Operation::Keys)),
        (Receiver::Pairs, b"append", Some(Operation::AppendEntries)),
        (Receiver::Pairs, b"push", None),
        (Receiver::Message, b"getnode", Some(id)),
        (Receiver::Message, b"getdata", Some(Operation::MessageData)),
        (Receiver::Message, b"count", None),
        (Receiver::Other, b"len", Some(length)),
        (Receiver::Other, b"getdata", None),
        (Receiver::Invalid, b"len", None),
    ];
    for (receiver, name, operation) in rows {
        assert_eq!(rt; method_named(receiver, name), operation);
    }
}
