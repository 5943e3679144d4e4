//! Source texts with the numbers of their functions.
use folder_rules::SourceFunctions;

/// A source text, and the number of its first function. The functions of a channel are numbered over all its source texts in order, from 0.
#[derive(Clone, Copy)]
pub struct NumberedSource<'a> {
    pub number: usize,
    pub text: &'a SourceFunctions,
}
