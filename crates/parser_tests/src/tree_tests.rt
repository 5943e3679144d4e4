//! Whole trees in their printed form, for each form of the grammar.
//!
//! A row of a table is a source, and the printed form of its tree. Each was found by hand.
use crate::test_sources::{printed_sub, printed_tree};
use std::test::Fail;

#[test]
fn trees_of_values(rt: HostRuntime) -> Result<(), Fail> {
    let alloc = rt.alloc();
    for (value, tree) in [
        ("1", "1@2:5"),
        ("&hFF", "&hFF@2:5"),
        ("\"a\"", "\"a\"@2:5"),
        ("true", "true@2:5"),
        ("False", "false@2:5"),
        ("INVALID", "invalid@2:5"),
        ("Each", "Each@2:5"),
        ("(a)", "(brackets@2:5 a@2:6)"),
        ("[]", "(array@2:5)"),
        ("[1\n2, 3]", "(array@2:5 1@2:6 2@3:1 3@3:4)"),
        ("{}", "(pairs@2:5)"),
        (
            "{a: 1, \"b c\": 2\nIf: 3}",
            "(pairs@2:5 (a@2:6 1@2:9) (\"b c\"@2:12 2@2:19) (If@3:1 3@3:5))",
        ),
        (
            "function(a)\nreturn a\nend function",
            "(function@2:5 (a@2:14) {(return@3:1 a@3:8)})",
        ),
        ("sub()\nend sub", "(sub@2:5 {})"),
        ("a.b", "(value a@2:5 (member@2:6 b@2:7))"),
        ("a.Next", "(value a@2:5 (member@2:6 Next@2:7))"),
        (
            "a[1][2]",
            "(value a@2:5 (index@2:6 1@2:7) (index@2:9 2@2:10))",
        ),
        ("f()", "(value f@2:5 (arguments@2:6))"),
        ("f(1, b)", "(value f@2:5 (arguments@2:6 1@2:7 b@2:10))"),
        (
            "(a)(b).c",
            "(value (brackets@2:5 a@2:6) (arguments@2:8 b@2:9) (member@2:11 c@2:12))",
        ),
    ] {
        let body = format!(in alloc; "x = {value}")?;
        let want = format!(in alloc; "(assign x@2:1 =@2:3 {tree})")?;
        assert_eq!(rt; printed_sub(alloc, &body)?, want);
    }
    Ok(())
}

#[test]
fn trees_of_operators(rt: HostRuntime) -> Result<(), Fail> {
    let alloc = rt.alloc();
    for (value, tree) in [
        ("-1", "(minus@2:5 1@2:6)"),
        ("- -a", "(minus@2:5 (minus@2:7 a@2:8))"),
        ("-a.b", "(minus@2:5 (value a@2:6 (member@2:7 b@2:8)))"),
        ("not a", "(not@2:5 a@2:9)"),
        ("not not a", "(not@2:5 (not@2:9 a@2:13))"),
        (
            "a * b \\ c mod d",
            "(product a@2:5 (*@2:7 b@2:9) (\\@2:11 c@2:13) (mod@2:15 d@2:19))",
        ),
        ("a - b + c", "(sum a@2:5 (-@2:7 b@2:9) (+@2:11 c@2:13))"),
        (
            "a << b >> c",
            "(shift a@2:5 (<<@2:7 b@2:10) (>>@2:12 c@2:15))",
        ),
        (
            "a = b <> c < d",
            "(comparison a@2:5 (=@2:7 b@2:9) (<>@2:11 c@2:14) (<@2:16 d@2:18))",
        ),
        (
            "a > b <= c >= d",
            "(comparison a@2:5 (>@2:7 b@2:9) (<=@2:11 c@2:14) (>=@2:16 d@2:19))",
        ),
        (
            "a and b and not c",
            "(conjunction a@2:5 (and@2:7 b@2:11) (and@2:13 (not@2:17 c@2:21)))",
        ),
        (
            "a or b or c",
            "(disjunction a@2:5 (or@2:7 b@2:10) (or@2:12 c@2:15))",
        ),
        (
            "a or b and c = d",
            "(disjunction a@2:5 (or@2:7 (conjunction b@2:10 (and@2:12 (comparison c@2:16 (=@2:18 d@2:20))))))",
        ),
        (
            "a << b + c * -d",
            "(shift a@2:5 (<<@2:7 (sum b@2:10 (+@2:12 (product c@2:14 (*@2:16 (minus@2:18 d@2:19)))))))",
        ),
        (
            "(a - b) * c",
            "(product (brackets@2:5 (sum a@2:6 (-@2:8 b@2:10))) (*@2:13 c@2:15))",
        ),
    ] {
        let body = format!(in alloc; "x = {value}")?;
        let want = format!(in alloc; "(assign x@2:1 =@2:3 {tree})")?;
        assert_eq!(rt; printed_sub(alloc, &body)?, want);
    }
    Ok(())
}

#[test]
fn trees_of_statements_in_one_line(rt: HostRuntime) -> Result<(), Fail> {
    let alloc = rt.alloc();
    for (body, tree) in [
        ("", ""),
        ("x = 1", "(assign x@2:1 =@2:3 1@2:5)"),
        (
            "a.b[1] = 2",
            "(assign (target a@2:1 (member@2:2 b@2:3) (index@2:4 1@2:5)) =@2:8 2@2:10)",
        ),
        ("x += 1", "(update x@2:1 +=@2:3 1@2:6)"),
        ("x -= 1", "(update x@2:1 -=@2:3 1@2:6)"),
        ("x *= 2", "(update x@2:1 *=@2:3 2@2:6)"),
        ("x \\= 2", "(update x@2:1 \\=@2:3 2@2:6)"),
        ("x++", "(count x@2:1 ++@2:2)"),
        ("a.b--", "(count (target a@2:1 (member@2:2 b@2:3)) --@2:4)"),
        ("f(1)", "(call (target f@2:1 (arguments@2:2 1@2:3)))"),
        (
            "a.f()",
            "(call (target a@2:1 (member@2:2 f@2:3) (arguments@2:4)))",
        ),
        ("print", "(print@2:1)"),
        ("? 1; a,, b;", "(print@2:1 1@2:3 ; a@2:6 , , b@2:10 ;)"),
        ("print , ; 1", "(print@2:1 , ; 1@2:11)"),
        ("return", "(return@2:1)"),
        ("return a", "(return@2:1 a@2:8)"),
        ("exit for", "(exit for@2:1)"),
        ("exitfor", "(exit for@2:1)"),
        ("exit while", "(exit while@2:1)"),
        ("exitwhile", "(exit while@2:1)"),
        (
            "x = 1 : : f()",
            "(assign x@2:1 =@2:3 1@2:5)(call (target f@2:11 (arguments@2:12)))",
        ),
    ] {
        assert_eq!(rt; printed_sub(alloc, body)?.as_str(), tree);
    }
    Ok(())
}

#[test]
fn trees_of_ifs(rt: HostRuntime) -> Result<(), Fail> {
    let alloc = rt.alloc();
    for (body, tree) in [
        ("if a\nend if", "(if (arm@2:1 a@2:4 {}))"),
        ("if a then\nelse\nend if", "(if (arm@2:1 a@2:4 {}) else {})"),
        (
            "if a then\nx++\nelse if b\ny++\nelseif c then\nz++\nelse\nreturn\nend if",
            "(if (arm@2:1 a@2:4 {(count x@3:1 ++@3:2)}) (arm@4:1 b@4:9 {(count y@5:1 ++@5:2)}) (arm@6:1 c@6:8 {(count z@7:1 ++@7:2)}) else {(return@9:1)})",
        ),
        (
            "if a x++",
            "(line if (arm@2:1 a@2:4 {(count x@2:6 ++@2:7)}))",
        ),
        (
            "if a then x = 1 : y = 2",
            "(line if (arm@2:1 a@2:4 {(assign x@2:11 =@2:13 1@2:15)(assign y@2:19 =@2:21 2@2:23)}))",
        ),
        (
            "if a x++ else if b y++ elseif c z++ else return",
            "(line if (arm@2:1 a@2:4 {(count x@2:6 ++@2:7)}) (arm@2:10 b@2:18 {(count y@2:20 ++@2:21)}) (arm@2:24 c@2:31 {(count z@2:33 ++@2:34)}) else {(return@2:42)})",
        ),
    ] {
        assert_eq!(rt; printed_sub(alloc, body)?.as_str(), tree);
    }
    Ok(())
}

#[test]
fn trees_of_loops(rt: HostRuntime) -> Result<(), Fail> {
    let alloc = rt.alloc();
    for (body, tree) in [
        ("for i = 1 to 3\nnext", "(for@2:1 i@2:5 1@2:9 to 3@2:14 {})"),
        (
            "for i = 3 to 1 step -1\nf()\nend for",
            "(for@2:1 i@2:5 3@2:9 to 1@2:14 step (minus@2:21 1@2:22) {(call (target f@3:1 (arguments@3:2)))})",
        ),
        (
            "for each = a to b : next",
            "(for@2:1 each@2:5 a@2:12 to b@2:17 {})",
        ),
        (
            "for each x in y\nexit for\nendfor",
            "(for each@2:1 x@2:10 y@2:15 {(exit for@3:1)})",
        ),
        (
            "while a : f() : end while",
            "(while@2:1 a@2:7 {(call (target f@2:11 (arguments@2:12)))})",
        ),
        (
            "while a\nwhile b\nend while\nendwhile",
            "(while@2:1 a@2:7 {(while@3:1 b@3:7 {})})",
        ),
    ] {
        assert_eq!(rt; printed_sub(alloc, body)?.as_str(), tree);
    }
    Ok(())
}

#[test]
fn trees_of_files(rt: HostRuntime) -> Result<(), Fail> {
    let alloc = rt.alloc();
    for (source, tree) in [
        ("", ""),
        ("sub f()\nend sub", "(sub@1:1 f@1:5 {})"),
        (
            "Function g(a, b = 1 as Integer, c as object) as string\nEndFunction\n\nsub h() as void : end sub",
            "(function@1:1 g@1:10 (a@1:12) (b@1:15 = 1@1:19 as integer) (c@1:33 as object) as string {})(sub@4:1 h@4:5 as void {})",
        ),
        (
            "sub f(a as boolean, b as longinteger, c as dynamic)\nend sub",
            "(sub@1:1 f@1:5 (a@1:7 as boolean) (b@1:21 as longinteger) (c@1:39 as dynamic) {})",
        ),
        (
            "sub f(a as function, b as interface)\nend sub\n",
            "(sub@1:1 f@1:5 (a@1:7 as function) (b@1:22 as interface) {})",
        ),
        (
            "sub f(a = sub()\nend sub)\nend sub",
            "(sub@1:1 f@1:5 (a@1:7 = (sub@1:11 {})) {})",
        ),
    ] {
        assert_eq!(rt; printed_tree(alloc, source)?.as_str(), tree);
    }
    Ok(())
}
