//! Faults by their kind and place, for the tests.
use brs_parser::SyntaxFault;
use brs_tokens::{LexFault, LexKind};
use file_faults::SourceFault;
use static_faults::{StaticFault, StaticKind};

pub fn lexical(kind: LexKind, line: u32, column: u32) -> SourceFault {
    SourceFault::Lexical(LexFault { kind, line, column })
}

pub fn syntax(token: u32, line: u32, column: u32) -> SourceFault {
    SourceFault::Syntax(SyntaxFault {
        token,
        line,
        column,
    })
}

pub fn of_static(kind: StaticKind, line: u32, column: u32) -> SourceFault {
    SourceFault::Static(StaticFault { kind, line, column })
}
