//! Good and faulty statements, for each form.
//!
//! A row of a table is a source, and the line and column of its fault, or 0 and 0 where it has a tree. Each fault was found by hand.
use crate::test_sources::place_in_a_sub;
use std::test::Fail;

#[test]
fn statements_in_one_line(rt: HostRuntime) -> Result<(), Fail> {
    let alloc = rt.alloc();
    for (body, line, column) in [
        ("x = 1", 0, 0),
        ("x = 1 : y = 2", 0, 0),
        (": x = 1", 0, 0),
        ("::", 0, 0),
        ("x = 1 ' note", 0, 0),
        ("rem x 1", 0, 0),
        ("", 0, 0),
        ("x 1", 2, 3),
        ("x", 2, 2),
        ("a.b", 2, 4),
        ("f(x) = 3", 2, 6),
        ("f(x)", 0, 0),
        ("a.b = 1", 0, 0),
        ("a[1] = 2", 0, 0),
        ("a.b(1).c = 2", 0, 0),
        ("a.b(1).c", 2, 9),
        ("a.b(1)", 0, 0),
        ("x += 1", 0, 0),
        ("x -= 1", 0, 0),
        ("x *= 2", 0, 0),
        ("x \\= 2", 0, 0),
        ("x++", 0, 0),
        ("a.b[1]--", 0, 0),
        ("x++ 1", 2, 5),
        ("x += ", 2, 6),
        ("f()++", 2, 4),
        ("1 = x", 2, 1),
        ("as = 1", 0, 0),
        ("each = in", 0, 0),
        ("in = each", 0, 0),
        ("string = void", 0, 0),
        ("if = 1", 2, 4),
        ("end = 1", 2, 5),
        ("let x = 1", 2, 1),
        ("x = 1 y = 2", 2, 7),
    ] {
        assert_eq!(rt; place_in_a_sub(alloc, body)?, Some((line, column)));
    }
    Ok(())
}

#[test]
fn prints_returns_and_exits(rt: HostRuntime) -> Result<(), Fail> {
    let alloc = rt.alloc();
    for (body, line, column) in [
        ("print", 0, 0),
        ("?", 0, 0),
        ("print 1", 0, 0),
        ("? 1", 0, 0),
        ("print 1; 2", 0, 0),
        ("print 1, 2", 0, 0),
        ("print ,;1,,2;", 0, 0),
        ("print ;", 0, 0),
        ("print 1;;", 0, 0),
        ("? \"a\" ; b", 0, 0),
        ("print 1 2", 2, 9),
        ("print =", 2, 7),
        ("print 1; = 2", 2, 10),
        ("printx", 2, 7),
        ("print 1 : print 2", 0, 0),
        ("return", 0, 0),
        ("return 1", 0, 0),
        ("return :", 0, 0),
        ("return 1 2", 2, 10),
        ("return =", 2, 8),
        ("exit for", 0, 0),
        ("exit while", 0, 0),
        ("exitfor", 0, 0),
        ("exitwhile", 0, 0),
        ("exit", 2, 5),
        ("exit if", 2, 6),
        ("exitfor 1", 2, 9),
        ("exit for while", 2, 10),
    ] {
        assert_eq!(rt; place_in_a_sub(alloc, body)?, Some((line, column)));
    }
    Ok(())
}

#[test]
fn ifs_with_blocks(rt: HostRuntime) -> Result<(), Fail> {
    let alloc = rt.alloc();
    for (body, line, column) in [
        ("if x\ny = 1\nend if", 0, 0),
        ("if x then\ny = 1\nendif", 0, 0),
        ("if x then\nelse if z then\nelse\nend if", 0, 0),
        ("if x then\nelseif y\nelse\nendif", 0, 0),
        (
            "if x then\nelse if y\nelseif z\nelse if w then\nend if",
            0,
            0,
        ),
        ("if x\nend if : y = 1", 0, 0),
        ("if x\nif y\nend if\nend if", 0, 0),
        ("if x then\nelse\nelse\nend if", 4, 1),
        ("if x then\nelse\nelseif y\nend if", 4, 1),
        ("if x\nend while", 3, 5),
        ("if x\nendwhile", 3, 1),
        ("if x then\ny = 1", 4, 5),
        ("if then", 2, 4),
        ("if x then then", 2, 11),
        ("if x : y = 1", 2, 6),
        ("if x then : y = 1", 2, 11),
        ("if x\nend if y = 1", 3, 8),
        ("if x then\nelse y = 1\nend if", 3, 6),
        ("if x then\nelse if\nend if", 3, 8),
        ("if x then\nelse if y z = 1\nend if", 3, 11),
        ("elseif x", 2, 1),
        ("else", 2, 1),
        ("end if", 2, 5),
        ("endif", 2, 1),
    ] {
        assert_eq!(rt; place_in_a_sub(alloc, body)?, Some((line, column)));
    }
    Ok(())
}

#[test]
fn ifs_in_one_line(rt: HostRuntime) -> Result<(), Fail> {
    let alloc = rt.alloc();
    for (body, line, column) in [
        ("if x then y = 1", 0, 0),
        ("if x y = 1", 0, 0),
        ("if x f()", 0, 0),
        ("if x then y = 1 else z = 2", 0, 0),
        ("if x then y = 1 : z = 2 else w = 3 : v = 4", 0, 0),
        ("if x then y = 1 else if z then w = 2 else v = 3", 0, 0),
        ("if x then y = 1 elseif z then w = 2", 0, 0),
        (
            "if x print 1 else if y print 2 elseif z print 3 else print 4",
            0,
            0,
        ),
        ("if x return", 0, 0),
        ("if x then y = 1 :", 2, 18),
        ("if x then y = 1 end if", 2, 17),
        ("if x then if y then z = 1", 2, 11),
        ("if x then y = 1 else if", 2, 24),
        ("if x then y = 1 else", 2, 21),
        ("if x else y = 1", 2, 6),
        ("if x then for i = 1 to 2", 2, 11),
        ("if x then y = 1 else z = 2 else w = 3", 2, 28),
        ("if x then y = 1 else z = 2 elseif w v = 3", 2, 28),
        ("if x then y", 2, 12),
    ] {
        assert_eq!(rt; place_in_a_sub(alloc, body)?, Some((line, column)));
    }
    Ok(())
}

#[test]
fn fors(rt: HostRuntime) -> Result<(), Fail> {
    let alloc = rt.alloc();
    for (body, line, column) in [
        ("for i = 1 to 3\nend for", 0, 0),
        ("for i = 1 to 3\nendfor", 0, 0),
        ("for i = 1 to 3\nnext", 0, 0),
        ("for i = 1 to 3 step 2\nnext", 0, 0),
        ("for i = 3 to 1 step -1\nx = i\nend for", 0, 0),
        ("for i = 1 to 3 : x = i : next", 0, 0),
        ("for i = 1 to 3 step\nnext", 2, 20),
        ("for i = 1\nnext", 2, 10),
        ("for i to 3", 2, 7),
        ("for i in x\nnext", 2, 7),
        ("for 1 = 1 to 2", 2, 5),
        ("for i = 1 to\nnext", 2, 13),
        ("for i = 1 to 3 next", 2, 16),
        ("for i = 1 to 3\nnext i", 3, 6),
        ("for i = 1 to 3\nend while", 3, 5),
        ("for i = 1 to 3\nendwhile", 3, 1),
        ("for a.b = 1 to 2", 2, 6),
        ("for each x in y\nend for", 0, 0),
        ("for each x in y : next", 0, 0),
        ("for each = 1 to 2\nnext", 0, 0),
        ("for each in in in\nnext", 0, 0),
        ("for each each in each\nnext", 0, 0),
        ("for each in f()\nnext", 2, 13),
        ("for each x of y", 2, 12),
        ("for each 1 in y", 2, 10),
        ("for each x in\nnext", 2, 14),
        ("for each x in y step 2", 2, 17),
        ("for in = 1 to 2\nnext", 0, 0),
        ("next", 2, 1),
    ] {
        assert_eq!(rt; place_in_a_sub(alloc, body)?, Some((line, column)));
    }
    Ok(())
}

#[test]
fn whiles(rt: HostRuntime) -> Result<(), Fail> {
    let alloc = rt.alloc();
    for (body, line, column) in [
        ("while x\nend while", 0, 0),
        ("while x\nendwhile", 0, 0),
        ("while x : y() : end while", 0, 0),
        ("while x\nexit while\nend while", 0, 0),
        ("while x\nwhile y\nend while\nendwhile", 0, 0),
        ("while\nend while", 2, 6),
        ("while x y\nend while", 2, 9),
        ("while x then\nend while", 2, 9),
        ("while x\nnext", 3, 1),
        ("while x\nend if", 3, 5),
        ("while x\nend while y = 1", 3, 11),
        ("while x\ny = 1", 4, 5),
    ] {
        assert_eq!(rt; place_in_a_sub(alloc, body)?, Some((line, column)));
    }
    Ok(())
}
