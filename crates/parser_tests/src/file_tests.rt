//! Good and faulty files, parameters and types, and how deep forms may stand inside one another.
//!
//! A row of a table is a source, and the line and column of its fault, or 0 and 0 where it has a tree. Each fault was found by hand.
use crate::test_sources::{fault_of, parsed, place_of_fault};
use brs_parser::SyntaxFault;
use brs_tokens::{LexAnswer, LexKind, lex};
use std::alloc::Global;
use std::test::Fail;
use std::thread::join;

/// A sub whose second line assigns a value that stands inside so many forms, each opened and closed by these texts.
fn in_values(alloc: Global, count: usize, opened: &str, closed: &str) -> Result<String, Fail> {
    let mut source = String::new(alloc);
    source.push_str("sub main()\nx = ")?;
    for _form in 0..count {
        source.push_str(opened)?;
    }
    source.push_str("1")?;
    for _form in 0..count {
        source.push_str(closed)?;
    }
    source.push_str("\nend sub\n")?;
    Ok(source)
}

/// A sub of blocks inside one another, each opened by its own line.
fn in_blocks(alloc: Global, count: usize, opened: &str, closed: &str) -> Result<String, Fail> {
    let mut source = String::new(alloc);
    source.push_str("sub main()\n")?;
    for _block in 0..count {
        source.push_str(opened)?;
    }
    for _block in 0..count {
        source.push_str(closed)?;
    }
    source.push_str("end sub\n")?;
    Ok(source)
}

#[test]
fn whole_files(rt: HostRuntime) -> Result<(), Fail> {
    let alloc = rt.alloc();
    for (source, line, column) in [
        ("", 0, 0),
        ("\n\n", 0, 0),
        ("' note", 0, 0),
        ("sub f()\nend sub", 0, 0),
        ("sub f()\nendsub\n", 0, 0),
        ("function f()\nend function", 0, 0),
        ("Function F() As Integer\nEndFunction", 0, 0),
        ("sub f() : end sub", 0, 0),
        ("sub f()\r\nend sub\r\n", 0, 0),
        ("\nsub f()\nend sub\n\n\nsub g()\nend sub", 0, 0),
        ("sub f()", 1, 8),
        ("sub f()\n", 2, 1),
        ("sub f()\nend", 2, 4),
        ("sub", 1, 4),
        ("sub 1", 1, 5),
        ("sub f", 1, 6),
        ("sub f(", 1, 7),
        ("sub if()", 1, 5),
        ("x = 1", 1, 1),
        ("f()", 1, 1),
        ("sub f() x = 1", 1, 9),
        ("sub f()\nx = 1", 2, 6),
        ("sub f()\nx = 1\n", 3, 1),
        ("function f()\nend sub", 2, 5),
        ("sub f()\nend function", 2, 5),
        ("sub f()\nend sub sub g()\nend sub", 2, 9),
        ("sub f()\nend sub : sub g()", 2, 9),
        ("sub f()\nend sub\nx", 3, 1),
        ("sub f()\nsub g()\nend sub\nend sub", 2, 1),
        ("sub f()\nend sub\nend sub", 3, 1),
        ("sub main()\nx = [1\n", 3, 1),
    ] {
        assert_eq!(rt; place_of_fault(alloc, source), Some((line, column)));
    }
    Ok(())
}

#[test]
fn parameters_and_types(rt: HostRuntime) -> Result<(), Fail> {
    let alloc = rt.alloc();
    for (source, line, column) in [
        ("sub f(a, b)\nend sub", 0, 0),
        (
            "sub f(a = 1, b = a + 1 as integer, c as string)\nend sub",
            0,
            0,
        ),
        ("sub f(a as function)\nend sub", 0, 0),
        (
            "sub f(as as object, in as dynamic, each as interface)\nend sub",
            0,
            0,
        ),
        ("sub f() as void\nend sub", 0, 0),
        (
            "function f() as longinteger : return 1 : end function",
            0,
            0,
        ),
        (
            "function string(boolean as boolean) as string\nend function",
            0,
            0,
        ),
        ("sub each()\nend sub", 0, 0),
        ("sub f(a = function()\nend function)\nend sub", 0, 0),
        ("sub f(a", 1, 8),
        ("sub f(a,)", 1, 9),
        ("sub f(,a)", 1, 7),
        ("sub f(a b)", 1, 9),
        ("sub f(1)", 1, 7),
        ("sub f(if)", 1, 7),
        ("sub f(a as)", 1, 11),
        ("sub f(a as thing)", 1, 12),
        ("sub f(a as integer = 1)", 1, 20),
        ("sub f(a = )", 1, 11),
        ("sub f(a = 1 = 2, b = )", 1, 22),
        ("sub f(a as sub)", 1, 12),
        ("sub f() as\n", 1, 11),
        ("sub f() as thing", 1, 12),
        ("function f() as integer return 1", 1, 25),
        ("sub f(\n)", 1, 7),
        ("sub f()()", 1, 8),
    ] {
        assert_eq!(rt; place_of_fault(alloc, source), Some((line, column)));
    }
    Ok(())
}

#[test]
fn forms_stand_64_deep_inside_one_another(rt: HostRuntime) -> Result<(), Fail> {
    let alloc = rt.alloc();
    for (opened, closed, column) in [("(", ")", 69), ("- ", "", 133), ("not ", "", 261)] {
        let good = in_values(alloc, 64, opened, closed)?;
        assert_eq!(rt; place_of_fault(alloc, &good), Some((0, 0)));
        let deep = in_values(alloc, 65, opened, closed)?;
        assert_eq!(rt; place_of_fault(alloc, &deep), Some((2, column)));
    }
    for (opened, closed, line, column) in [
        ("while x\n", "end while\n", 66, 1),
        ("for i = 1 to 2\n", "next\n", 66, 1),
        ("if x\n", "end if\n", 66, 5),
        ("if x\nelse if y\n", "end if\n", 130, 5),
        ("if x\nelseif y\nelse\n", "end if\n", 194, 5),
        ("x = sub()\n", "end sub\n", 66, 5),
    ] {
        let good = in_blocks(alloc, 64, opened, closed)?;
        assert_eq!(rt; place_of_fault(alloc, &good), Some((0, 0)));
        let deep = in_blocks(alloc, 65, opened, closed)?;
        assert_eq!(rt; place_of_fault(alloc, &deep), Some((line, column)));
    }
    Ok(())
}

#[test]
fn faults_of_spelling_come_first(rt: HostRuntime) -> Result<(), Fail> {
    let alloc = rt.alloc();
    for (source, kind, column) in [
        ("sub main()\nx = 1.5\nend sub\n", LexKind::FloatLiteral, 5),
        ("sub main()\nx = 4/2\nend sub\n", LexKind::Slash, 6),
    ] {
        let found = lex(alloc, source.as_bytes(), 1);
        assert!(rt;
            matches!(found, Err(LexAnswer::Fault(fault)) if fault.kind == kind && fault.line == 2 && fault.column == column)
        );
    }
    Ok(())
}

/// How many named functions a source file has, and nothing where it has no tree.
fn count_of_functions(alloc: Global, source: &str) -> Option<usize> {
    match parsed(alloc, source)? {
        Ok(file) => Some(file.tree().functions.len()),
        Err(_) => None,
    }
}

#[test]
fn functions_and_fault_tokens_are_counted(rt: HostRuntime) -> Result<(), Fail> {
    let alloc = rt.alloc();
    for (source, functions) in [
        ("", 0),
        ("\n", 0),
        ("sub f()\nend sub\nfunction g()\nend function", 2),
    ] {
        assert_eq!(rt; count_of_functions(alloc, source), Some(functions));
    }
    let end = SyntaxFault {
        token: 4,
        line: 1,
        column: 8,
    };
    assert_eq!(rt; fault_of(alloc, "sub f()"), Some(end));
    Ok(())
}

fn may_be_shared<T: Send + Sync>(_value: &T) {}

#[test]
fn parsed_files_cross_threads(rt: HostRuntime) -> Result<(), Fail> {
    let alloc = rt.alloc();
    let source = "sub f()\nend sub";
    let (here, there) = join(&rt, || parsed(alloc, source), || parsed(alloc, source));
    may_be_shared(&here);
    assert!(rt; matches!(&here, Some(Ok(file)) if file.tree().functions.len() == 1));
    assert!(rt; matches!(&there, Some(Ok(file)) if file.tree().functions.len() == 1));
    Ok(())
}
