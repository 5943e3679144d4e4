//! What a call in progress keeps beside its operands and its slots.

use brs_heap::Value;

/// Who gets what a call returns.
#[derive(Clone, Copy, Debug, PartialEq, Eq)]
pub enum CallKind {
    /// The call below it.
    Inner,
    /// The world, which put it on top.
    OnTop,
}

/// Where the value goes that a suspended call waits for.
#[derive(Clone, Copy, Debug, PartialEq, Eq)]
pub enum Landing {
    /// On its operands.
    Operands,
    /// Nowhere, since it only ends a statement.
    Nowhere,
}

/// The plain part of a call in progress.
#[derive(Clone, Copy, Debug, PartialEq, Eq)]
pub struct CallHead {
    pub kind: CallKind,
    /// The number of its function.
    pub function: usize,
    /// The place of that function's path in the listing of files.
    pub path: u32,
    /// The number of its home.
    pub home: u32,
    /// The place of its next instruction.
    pub place: usize,
    /// The line of the instruction at which it was suspended last.
    pub line: u32,
    pub landing: Landing,
}

/// A call in progress, and where its operands and its slots begin.
#[derive(Debug, Drop)]
pub struct Header {
    pub head: CallHead,
    /// Its `m`.
    pub m: Value,
    /// The number of operands of the calls below it.
    pub operands: usize,
    /// The number of slots of the calls below it.
    pub slots: usize,
}
