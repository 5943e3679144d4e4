//! The code of sources as text, for the tests.
use crate::steps::steps;
use brs_code::{Code, Function, ScopeList, verify};
use brs_compiler::{compile, static_fault};
use brs_parser::{ParseAnswer, ParsedFile};
use brs_tokens::lex;
use code_drafts::Draft;
use std::alloc::{AllocError, Global};
use tree_code::file_drafts;

/// What parsing answers for a source file, and nothing where it has no tokens.
#[tactic(auto, using(brs_parser::proofs::Places::is_spelled))]
fn parsed(alloc: Global, source: &str) -> Option<Result<ParsedFile, ParseAnswer>> {
    let source = source.as_bytes();
    if source.len() > 1_000_000 {
        return None;
    }
    match lex(alloc, source, 1) {
        Ok(tokens) => Some(ParsedFile::parse(alloc, &tokens)),
        Err(_) => None,
    }
}

/// An instruction with its line. An anonymous function is told by how many instructions it has.
fn draft_text(alloc: Global, draft: &Draft) -> Result<String, AllocError> {
    match draft {
        Draft::Plain(instr, line) => format!(in alloc; "{instr:?}@{line} "),
        Draft::Slot(instr, line, _) => format!(in alloc; "{instr:?}@{line} "),
        Draft::Word(instr, line, text) => format!(in alloc; "{instr:?}@{line}:{} ", text.as_str()),
        Draft::Words(instr, line, _) => format!(in alloc; "{instr:?}@{line} "),
        Draft::Marks(instr, line, _) => format!(in alloc; "{instr:?}@{line} "),
        Draft::Function(line, _, _, _, _, code) => {
            format!(in alloc; "Function[{}]@{line} ", code.len())
        }
    }
}

/// The code from its first instruction on.
fn code_text(alloc: Global, code: &[Draft]) -> Result<String, AllocError> {
    let mut text = String::new(alloc);
    for draft in code.iter().rev() {
        text.push_str(draft_text(alloc, draft)?.as_str())?;
    }
    Ok(text)
}

fn first_code(alloc: Global, drafts: &[Draft]) -> Result<String, AllocError> {
    match drafts.first() {
        Some(Draft::Function(_, _, _, _, _, code)) => code_text(alloc, code.as_slice()),
        _ => format!(in alloc; "no function"),
    }
}

/// The code of the first function of a source file, or `no tree` or `no memory`.
pub fn function_code(alloc: Global, source: &str) -> Result<String, AllocError> {
    match parsed(alloc, source) {
        Some(Ok(file)) => match file_drafts(alloc, file.tree()) {
            Ok(drafts) => first_code(alloc, drafts.as_slice()),
            Err(_) => format!(in alloc; "no memory"),
        },
        _ => format!(in alloc; "no tree"),
    }
}

/// A function's instructions, each with its line and with how many operands it begins.
fn placed_text(alloc: Global, function: &Function) -> Result<String, AllocError> {
    let mut text = String::new(alloc);
    for placed in function.code.as_slice() {
        let one = format!(in alloc; "{:?}@{}/{} ", placed.instr, placed.line, placed.operands)?;
        text.push_str(one.as_str())?;
    }
    Ok(text)
}

/// The code of a source file in which there is no fault.
fn compiled(alloc: Global, source: &str) -> Option<Code> {
    match parsed(alloc, source) {
        Some(Ok(file)) => match static_fault(file.tree()) {
            None => compile(alloc, file.tree()).ok(),
            Some(_) => None,
        },
        _ => None,
    }
}

/// The compiled code of the first function of a source file, or `no code`.
pub fn compiled_code(alloc: Global, source: &str) -> Result<String, AllocError> {
    match compiled(alloc, source) {
        Some(code) => match code.named.as_slice().first() {
            Some(function) => placed_text(alloc, function),
            None => format!(in alloc; "no code"),
        },
        None => format!(in alloc; "no code"),
    }
}

/// How many steps the first function of a source file takes on the way that the letters tell, 0 where there is none.
pub fn way_steps(alloc: Global, source: &str, ways: &str) -> usize {
    match compiled(alloc, source) {
        Some(code) => match code.named.as_slice().first() {
            Some(function) => steps(function, ways),
            None => 0,
        },
        None => 0,
    }
}

/// Whether code keeps the rule once it has a scope.
fn keeps_rule(alloc: Global, mut code: Code) -> bool {
    if code.scopes.len() > 9 {
        return false;
    }
    match code.add_scope(alloc, &ScopeList::new(alloc)) {
        Ok(_) => verify(code).is_ok(),
        Err(_) => false,
    }
}

/// Whether the compiled code of a source file keeps the rule of valid code once it has a scope.
pub fn is_valid(alloc: Global, source: &str) -> bool {
    match compiled(alloc, source) {
        Some(code) => keeps_rule(alloc, code),
        None => false,
    }
}

fn first_len(drafts: &[Draft]) -> usize {
    match drafts.first() {
        Some(Draft::Function(_, _, _, _, _, code)) => code.len(),
        _ => 0,
    }
}

/// How many instructions the first function of a source file has, 0 where there is none.
pub fn instruction_count(alloc: Global, source: &str) -> usize {
    match parsed(alloc, source) {
        Some(Ok(file)) => match file_drafts(alloc, file.tree()) {
            Ok(drafts) => first_len(drafts.as_slice()),
            Err(_) => 0,
        },
        _ => 0,
    }
}
