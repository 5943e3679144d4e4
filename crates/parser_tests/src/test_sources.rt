//! Source files and what parsing answers for them, for the tests.
use crate::tree_text::tree_text;
use brs_parser::{ParseAnswer, ParsedFile, SyntaxFault};
use brs_tokens::lex;
use std::alloc::{AllocError, Global};
use std::test::Fail;

/// What parsing answers for a source file, and nothing where it has no tokens.
#[tactic(auto, using(brs_parser::proofs::Places::is_spelled))]
pub fn parsed(alloc: Global, source: &str) -> Option<Result<ParsedFile, ParseAnswer>> {
    let source = source.as_bytes();
    if source.len() > 1_000_000 {
        return None;
    }
    match lex(alloc, source, 1) {
        Ok(tokens) => Some(ParsedFile::parse(alloc, &tokens)),
        Err(_) => None,
    }
}

/// The fault of a source file, and nothing where it has a tree or isn't read at all.
pub fn fault_of(alloc: Global, source: &str) -> Option<SyntaxFault> {
    match parsed(alloc, source)? {
        Ok(_file) => None,
        Err(ParseAnswer::Fault(fault)) => Some(fault),
        Err(ParseAnswer::NoMemory) => None,
    }
}

/// The line and column of the fault of a source file, `(0, 0)` where it has a tree, and nothing where it isn't read at all.
pub fn place_of_fault(alloc: Global, source: &str) -> Option<(u32, u32)> {
    match parsed(alloc, source)? {
        Ok(_file) => Some((0, 0)),
        Err(ParseAnswer::Fault(fault)) => Some((fault.line, fault.column)),
        Err(ParseAnswer::NoMemory) => None,
    }
}

/// The same for statements that stand in a sub from the second line on.
pub fn place_in_a_sub(alloc: Global, body: &str) -> Result<Option<(u32, u32)>, Fail> {
    let source = format!(in alloc; "sub f()\n{body}\nend sub\n")?;
    Ok(place_of_fault(alloc, &source))
}

/// The printed form of a source file's tree, or `no tree`.
pub fn printed_tree(alloc: Global, source: &str) -> Result<String, AllocError> {
    match parsed(alloc, source) {
        Some(Ok(file)) => tree_text(alloc, file.tree()),
        _ => format!(in alloc; "no tree"),
    }
}

/// The printed form of the statements that stand in a sub from the second line on, or what has the place of that.
pub fn printed_sub(alloc: Global, body: &str) -> Result<String, AllocError> {
    let source = format!(in alloc; "sub f()\n{body}\nend sub\n")?;
    let text = printed_tree(alloc, &source)?;
    let inner = text
        .strip_prefix("(sub@1:1 f@1:5 {")
        .and_then(|rest| rest.strip_suffix("})"));
    format!(in alloc; "{}", inner.unwrap_or("no sub"))
}
