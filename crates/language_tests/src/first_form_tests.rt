//! Source files of the first form, and files that just miss it.
use first_form::first_main;
use std::alloc::Global;
use std::process::Abort;
use std::test::Fail;

fn is_first(rt: &impl Abort, alloc: Global, source: &str) -> Result<bool, Fail> {
    assert!(rt; source.len() <= 65_536);
    let main = first_main(alloc, source.as_bytes())?;
    Ok(main.is_some())
}

#[test]
fn files_meet_the_first_form_or_just_miss_it(rt: HostRuntime) -> Result<(), Fail> {
    for (source, want) in [
        ("sub main()\nend sub", true),
        ("sub main()\nend sub\n", true),
        ("sub main()\nend sub\n\n", false),
        ("sub main()\r\nprint 1\r\nend sub\r\n", true),
        ("\tSUB  Main ( )\t\nEnd\tSub", true),
        ("sub main()\nendsub", false),
        ("sub main() end sub", false),
        ("sub other()\nend sub", false),
        ("function main()\nend function", false),
        ("\nsub main()\nend sub", false),
        ("", false),
    ] {
        assert_eq!(rt; is_first(&rt, rt.alloc(), source)?, want, "{source}");
    }
    Ok(())
}

#[test]
fn lines_meet_the_first_form_or_just_miss_it(rt: HostRuntime) -> Result<(), Fail> {
    for (lines, want) in [
        ("\t \r", true),
        ("print 2147483647", true),
        ("print 2147483648", false),
        ("print 1a", false),
        ("print 1_", false),
        ("print 1 + 2 - 3", true),
        ("print 1 +-2", false),
        ("print 1--2", false),
        ("x = 1\nx += 1", false),
        ("print \"~\"", true),
        ("print \"a\"\"b\"", false),
        ("print \"a\\b\"", false),
        ("print \"\x7f\"", false),
        ("print \"a", false),
        ("print \"a\"; 1;\"b\"", true),
        ("print 1;", false),
        ("print 1 2", false),
        ("print \"a\" + 1", false),
        ("print", false),
        ("remark = 1", true),
        ("rem = 1", false),
        ("REM", false),
        ("next = 1", false),
        ("PRINT 1", true),
        ("x = 1\n\nPrint X", true),
        ("print x\nx = 1", false),
        ("x = x", false),
        ("mm = 1", true),
        ("m = 1", false),
        ("M = 1", false),
    ] {
        let source = format!(in rt.alloc(); "sub main()\n{lines}\nend sub")?;
        assert_eq!(rt;
            is_first(&rt, rt.alloc(), source.as_str())?,
            want,
            "{lines}"
        );
    }
    Ok(())
}

#[test]
fn many_names_are_read(rt: HostRuntime) -> Result<(), Fail> {
    let mut source = String::from_str(rt.alloc(), "sub main()\n")?;
    for n in 0..4000 {
        let line = format!(in rt.alloc(); "n{n} = {n}\n")?;
        source.push_str(line.as_str())?;
    }
    source.push_str("print n0 + n3999\nend sub")?;
    assert!(rt; is_first(&rt, rt.alloc(), source.as_str())?);
    Ok(())
}
