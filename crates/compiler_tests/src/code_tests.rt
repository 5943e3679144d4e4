//! The code of small bodies, which was found by hand, and the length of a chain of arms.
use crate::code_text::{compiled_code, function_code, instruction_count, is_valid, way_steps};
use std::alloc::{AllocError, Global};
use std::test::Fail;

#[test]
fn each_form_has_its_instructions(rt: HostRuntime) -> Result<(), Fail> {
    let alloc = rt.alloc();
    for (body, count) in [
        ("x = 7\nprint \"x=\"; x; \" \"; x \\ 2; x mod 4", 13),
        ("x++", 5),
        ("x = a and b", 6),
        ("a.b[1] += 2", 8),
        ("a.b.c(1)", 6),
        ("for i = 1 to 3\nnext", 6),
        ("for i = 1 to 3 step 2\nexit for\nnext", 8),
        ("for each x in [1, 2]\nnext", 6),
        ("while a\nend while", 5),
        ("if a then\nelse if b then\nend if", 7),
        ("if a then return", 5),
        ("x = function(a, b = 1)\nend function", 3),
    ] {
        let source = format!(in alloc; "sub f()\n{body}\nend sub\n")?;
        assert_eq!(rt; instruction_count(alloc, &source), count);
    }
    Ok(())
}

/// The last step of each is the end of the body.
#[test]
fn each_form_takes_its_steps(rt: HostRuntime) -> Result<(), Fail> {
    let alloc = rt.alloc();
    for (body, ways, steps) in [
        ("x = 7\nprint \"x=\"; x; \" \"; x \\ 2; x mod 4", "", 13),
        ("x++", "", 5),
        ("for i = 1 to 3\nnext", "gggt", 11),
        ("for each x in [1, 2]\nnext", "ttg", 8),
        ("while a\nend while", "gt", 7),
        ("x = a and b", "t", 4),
        ("x = a and b", "g", 5),
        ("if a then\nb = 1\nelse\nb = 2\nend if", "g", 5),
        ("if a then\nb = 1\nelse\nb = 2\nend if", "t", 5),
        ("a[1] += 2", "", 7),
        ("for i = 1 to 3 step 2\nexit for\nnext", "g", 7),
    ] {
        let source = format!(in alloc; "sub f()\n{body}\nend sub\n")?;
        assert_eq!(rt; way_steps(alloc, &source, ways), steps);
    }
    Ok(())
}

#[test]
fn operands_come_in_order_and_jumps_count(rt: HostRuntime) -> Result<(), Fail> {
    let alloc = rt.alloc();
    for (body, code) in [
        (
            "x = 1 - 2",
            "Integer(1)@2 Integer(2)@2 Binary(Subtract)@2 Store(0)@2 End@0 ",
        ),
        (
            "x = a.Next or m",
            "Load(0)@2 Member(0)@2:next OrTest(2)@2 LoadM@2 Binary(Or)@2 Store(0)@2 End@0 ",
        ),
        (
            "while true\nexit while\nend while",
            "While@2 Truth(true)@2 Branch(2)@2 Exit(0, 1)@3 Again(3)@2 End@0 ",
        ),
        (
            "x = function(a = 1)\nend function",
            "Function[3]@2 Store(0)@2 End@0 ",
        ),
    ] {
        let source = format!(in alloc; "sub f()\n{body}\nend sub\n")?;
        let made = function_code(alloc, &source)?;
        assert_eq!(rt; made.as_str(), code);
    }
    Ok(())
}

#[test]
fn compiled_code_has_places_and_operands(rt: HostRuntime) -> Result<(), Fail> {
    let alloc = rt.alloc();
    for (body, code) in [
        (
            "x = 1 - 2",
            "Integer(1)@2/0 Integer(2)@2/1 Binary(Subtract)@2/2 Store(0)@2/1 End@0/0 ",
        ),
        (
            "while true\nexit while\nend while",
            "While@2/0 Truth(true)@2/0 Branch(5)@2/1 Exit(0, 5)@3/0 Again(1)@2/0 End@0/0 ",
        ),
        (
            "if a then\nb = m\nelse\na = b\nend if",
            "Load(0)@2/0 Branch(5)@2/1 LoadM@3/0 Store(1)@3/1 Jump(7)@0/0 Load(1)@5/0 Store(0)@5/1 End@0/0 ",
        ),
        (
            "for i = 1 to 3\nexit for\nnext",
            "Integer(1)@2/0 Integer(3)@2/1 For(0)@2/2 ForTest(0, 6)@2/2 Exit(2, 6)@3/2 ForNext(0, 3)@2/2 End@0/0 ",
        ),
    ] {
        let source = format!(in alloc; "sub f()\n{body}\nend sub\n")?;
        let made = compiled_code(alloc, &source)?;
        assert_eq!(rt; made.as_str(), code);
    }
    Ok(())
}

#[test]
fn compiled_code_keeps_the_rule(rt: HostRuntime) -> Result<(), Fail> {
    let alloc = rt.alloc();
    for body in [
        "",
        "x = 7\nprint \"x=\"; x; \" \"; x \\ 2; x mod 4",
        "print\nprint ; , ;\nprint x, y;",
        "x++\na.b[1] += 2\na[x]--\nm.x \\= 3",
        "x = a and b or not c and -a << 2 >> b <> 1 + 2 * 3",
        "x = []\ny = {}\nz = [[1], {a: 2, \"B c\": []}]",
        "a.b.c(1)\na[1].b(2)[3].c = (a.b)(c)(a, b)",
        "for i = 1 to 3 step 2\nexit for\nnext",
        "for each x in [1, 2]\nwhile a\nexit for\nexit while\nend while\nnext",
        "while a\nfor i = 1 to 2\nfor each x in b\nexit while\nnext\nexit for\nnext\nend while",
        "if a then\nelse if b then\nreturn\nelse\nend if",
        "if a then x = 1 else if b then x = 2 else return",
        "x = {a: 1, b: [function(a, b = 1) as integer\nreturn a + b\nend function]}",
        "x = function(f = sub(a = b or c)\nend sub)\nreturn function()\nend function\nend function",
    ] {
        let source = format!(in alloc; "sub f(a, b = 1, c = b as integer)\n{body}\nend sub\n")?;
        assert!(rt; is_valid(alloc, &source), "{body}");
    }
    Ok(())
}

#[test]
fn a_static_fault_comes_before_code(rt: HostRuntime) -> Result<(), Fail> {
    let alloc = rt.alloc();
    for (body, kept) in [("exit while", false), ("m = 1", false), ("m.x = 1", true)] {
        let source = format!(in alloc; "sub f()\n{body}\nend sub\n")?;
        assert!(rt; is_valid(alloc, &source) == kept, "{body}");
    }
    Ok(())
}

/// An `if` with so many further arms.
fn long_chain(alloc: Global, arms: usize) -> Result<String, AllocError> {
    let mut source = String::new(alloc);
    source.push_str("sub f()\nif a then\n")?;
    for _ in 0..arms {
        source.push_str("else if a then\n")?;
    }
    source.push_str("end if\nend sub\n")?;
    Ok(source)
}

#[test]
fn a_chain_of_ten_thousand_arms_has_code(rt: HostRuntime) -> Result<(), Fail> {
    let alloc = rt.alloc();
    let source = long_chain(alloc, 10_000)?;
    assert_eq!(rt; instruction_count(alloc, &source), 30_004);
    Ok(())
}
