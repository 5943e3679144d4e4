//! What no clause says: with ample memory a source file is read, and so is its first fault.
use crate::faults::{lexical, of_static, syntax};
use brs_tokens::LexKind;
use file_faults::{SourceAnswer, SourceFault, read_source};
use static_faults::StaticKind;
use std::alloc::Global;
use std::test::Fail;

/// What a source file is: good with so many functions, or of a first fault; nothing where it isn't read.
fn read(alloc: Global, src: &str) -> Option<Result<usize, SourceFault>> {
    if src.len() >= 1000 {
        return None;
    }
    match read_source(alloc, src.as_bytes(), 1) {
        Ok(file) => Some(Ok(file.tree().functions.len())),
        Err(SourceAnswer::Fault(fault)) => Some(Err(fault)),
        Err(SourceAnswer::NoMemory) => None,
    }
}

#[test]
fn lexical_faults_come_before_syntax_and_syntax_before_static_faults(
    rt: HostRuntime,
) -> Result<(), Fail> {
    for (src, want) in [
        ("", Ok(0)),
        ("sub main()\nend sub\nsub f()\nend sub\n", Ok(2)),
        (
            "sub main()\nx = 4/2\nend sub\n",
            Err(lexical(LexKind::Slash, 2, 6)),
        ),
        ("sub main()\na.b\nend sub\n", Err(syntax(8, 2, 4))),
        (
            "sub main()\nexit for\nend sub\n",
            Err(of_static(StaticKind::ExitOutsideLoop, 2, 1)),
        ),
        (
            "sub main()\nexit for\na.b\n/\n",
            Err(lexical(LexKind::Slash, 4, 1)),
        ),
        ("sub main()\nexit for\na.b\n", Err(syntax(11, 3, 4))),
    ] {
        assert_eq!(rt; read(rt.alloc(), src), Some(want));
    }
    Ok(())
}
