//! Texts without the blanks at their ends.
ghost use Rattle.std.specs.Prelude.{◌≡◌, ◌<◌, length, IfOk, MatchOption};
ghost use Rattle.plain_operations.specs.Texts as spec;

use crate::parts::copy_text;
use chan_values::{NoMemory, Text};
use std::alloc::Global;

/// The text behind a space or tab at its start, `None` exactly where none is there.
fn behind_blank(s: &str) -> Option<&str>
    ensures { MatchOption result (spec.without_first_blanks s.now ≡ s.now) (λ rest. (length rest.now < length s.now) × (spec.without_first_blanks rest.now ≡ spec.without_first_blanks s.now)) }
{
    match s.strip_prefix(' ') {
        Some(rest) => Some(rest),
        None => s.strip_prefix('\t'),
    }
}

/// The text before a space or tab at its end, `None` exactly where none is there.
fn before_blank(s: &str) -> Option<&str>
    ensures { MatchOption result (spec.without_end_blanks s.now ≡ s.now) (λ front. (length front.now < length s.now) × (spec.without_end_blanks front.now ≡ spec.without_end_blanks s.now)) }
{
    match s.strip_suffix(' ') {
        Some(front) => Some(front),
        None => s.strip_suffix('\t'),
    }
}

/// The text without the spaces and tabs at its start.
fn without_first_blanks(mut s: &str) -> &str
    ensures { result.now ≡ spec.without_first_blanks s.entry.now }
{
    while let Some(rest) = behind_blank(s) {
        s = rest;
    }
    s
}

/// The text without the spaces and tabs at its end.
fn without_end_blanks(mut s: &str) -> &str
    ensures { result.now ≡ spec.without_end_blanks s.entry.now }
{
    while let Some(front) = before_blank(s) {
        s = front;
    }
    s
}

/// The text without the spaces and tabs at both ends.
pub fn trimmed(alloc: Global, s: &str) -> Result<Text, NoMemory>
    ensures { IfOk result (λ t. t ≡ spec.trimmed s.now) }
{
    copy_text(alloc, without_end_blanks(without_first_blanks(s)))
}
