//! Good and faulty expressions, for each form.
//!
//! A row of a table is a source, and the line and column of its fault, or 0 and 0 where it has a tree. Each fault was found by hand.
use crate::test_sources::place_in_a_sub;
use std::test::Fail;

#[test]
fn operators(rt: HostRuntime) -> Result<(), Fail> {
    let alloc = rt.alloc();
    for (body, line, column) in [
        ("x = 1 + 2 * 3 - 4 \\ 5 mod 6", 0, 0),
        ("x = a << 1 >> 2", 0, 0),
        ("x = a < b <= c <> d >= e > f", 0, 0),
        ("x = not a = b and c or d", 0, 0),
        ("x = not not a", 0, 0),
        ("x = a and not b", 0, 0),
        ("x = -1", 0, 0),
        ("x = - -1", 0, 0),
        ("x = 2 * -3", 0, 0),
        ("x = true and false or invalid", 0, 0),
        ("x = a + not b", 2, 9),
        ("x = a = not b", 2, 9),
        ("x = 1 +", 2, 8),
        ("x = +1", 2, 5),
        ("x = --1", 2, 5),
        ("x = a mod", 2, 10),
        ("x = and b", 2, 5),
        ("x = a or", 2, 9),
        ("x = a not b", 2, 7),
        ("x = a = = b", 2, 9),
        ("x = end", 2, 5),
        ("x = step", 2, 5),
        ("x =", 2, 4),
    ] {
        assert_eq!(rt; place_in_a_sub(alloc, body)?, Some((line, column)));
    }
    Ok(())
}

#[test]
fn values(rt: HostRuntime) -> Result<(), Fail> {
    let alloc = rt.alloc();
    for (body, line, column) in [
        ("x = (1)", 0, 0),
        ("x = ((a) + (b)) * c", 0, 0),
        ("x = &hFF", 0, 0),
        ("x = \"a\" + \"b\"", 0, 0),
        ("x = a.b.c", 0, 0),
        ("x = a.if", 0, 0),
        ("x = a.Next.end(1).sub", 0, 0),
        ("x = a[1][2](3, 4).b", 0, 0),
        ("x = (a)(b)[c].d", 0, 0),
        ("x = \"a\".b(1)", 0, 0),
        ("x = f()", 0, 0),
        ("x = f(1, 2, 3)", 0, 0),
        ("x = ()", 2, 6),
        ("x = (1", 2, 7),
        ("x = 1)", 2, 6),
        ("x = (1 2)", 2, 8),
        ("x = a.", 2, 7),
        ("x = a.\"b\"", 2, 7),
        ("x = a[]", 2, 7),
        ("x = a[1", 2, 8),
        ("x = a[1, 2]", 2, 8),
        ("x = a[1)", 2, 8),
        ("x = f(,)", 2, 7),
        ("x = f(1,)", 2, 9),
        ("x = f(1 2)", 2, 9),
        ("x = f(\n1)", 2, 7),
        ("x = f(1", 2, 8),
        ("x = f(1]", 2, 8),
        ("x = a b", 2, 7),
    ] {
        assert_eq!(rt; place_in_a_sub(alloc, body)?, Some((line, column)));
    }
    Ok(())
}

#[test]
fn arrays_and_pairs(rt: HostRuntime) -> Result<(), Fail> {
    let alloc = rt.alloc();
    for (body, line, column) in [
        ("x = []", 0, 0),
        ("x = [1, 2]", 0, 0),
        ("x = [1\n2\n]", 0, 0),
        ("x = [\n1,\n2\n]", 0, 0),
        ("x = [\n]", 0, 0),
        ("x = [1,]", 0, 0),
        ("x = [1\n,\n2]", 0, 0),
        ("x = [1\n\n\n2]", 0, 0),
        ("x = [[1], {a: [2]}]", 0, 0),
        ("x = [,1]", 2, 6),
        ("x = [1,,2]", 2, 8),
        ("x = [1 2]", 2, 8),
        ("x = [1:2]", 2, 7),
        ("x = [1,\n,2]", 3, 1),
        ("x = [1", 3, 1),
        ("x = [1)", 2, 7),
        ("x = [1; 2]", 2, 7),
        ("x = {}", 0, 0),
        ("x = {\n}", 0, 0),
        ("x = {a: 1}", 0, 0),
        ("x = {a: 1, b: 2}", 0, 0),
        ("x = {a: 1\nb: 2}", 0, 0),
        ("x = {\na: 1,\nb: 2,\n}", 0, 0),
        ("x = {\"a b\": 1}", 0, 0),
        ("x = {if: 1, end: 2, next: 3, function: 4}", 0, 0),
        ("x = {a: 1,}", 0, 0),
        ("x = {a: {b: [1, {}]}}", 0, 0),
        ("x = {a}", 2, 7),
        ("x = {a: }", 2, 9),
        ("x = {1: 2}", 2, 6),
        ("x = {a: 1 b: 2}", 2, 11),
        ("x = {a = 1}", 2, 8),
        ("x = {a: 1,, b: 2}", 2, 11),
        ("x = {,}", 2, 6),
        ("x = {a: 1", 3, 5),
        ("x = {a.b: 1}", 2, 7),
        ("x = {a:\n1}", 2, 8),
    ] {
        assert_eq!(rt; place_in_a_sub(alloc, body)?, Some((line, column)));
    }
    Ok(())
}

#[test]
fn functions_inside_expressions(rt: HostRuntime) -> Result<(), Fail> {
    let alloc = rt.alloc();
    for (body, line, column) in [
        ("x = function()\nend function", 0, 0),
        ("x = sub()\nend sub", 0, 0),
        (
            "x = function(a, b = 1 as integer) as string : return a : endfunction",
            0,
            0,
        ),
        ("f(1, sub()\ny = 2\nendsub, 3)", 0, 0),
        ("f(function(a)\nreturn a\nend function)", 0, 0),
        ("x = {go: function()\nend function, n: 1}", 0, 0),
        ("x = sub()\nend sub : y = 1", 0, 0),
        ("x = function()\nend sub", 3, 5),
        ("x = sub()\nend function", 3, 5),
        ("x = function()\nendsub", 3, 1),
        ("x = function\n", 2, 13),
        ("x = function g()\nend function", 2, 14),
        ("x = function() 1\nend function", 2, 16),
        ("f(sub()\nend sub", 3, 8),
    ] {
        assert_eq!(rt; place_in_a_sub(alloc, body)?, Some((line, column)));
    }
    Ok(())
}
