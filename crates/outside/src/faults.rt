//! What a call on the outside answers in place of its result.

/// The outside did not do what it was asked. What the object holds or has left is as it was.
#[derive(Clone, Copy, Debug, PartialEq, Eq)]
pub struct Failed;

/// What a call on files answers in place of its result. What the object holds is as it was.
#[derive(Clone, Copy, Debug, PartialEq, Eq)]
pub enum FilesFault {
    /// The outside did not do what it was asked.
    Failed,
    /// Memory ran out, which is no fault of the files.
    NoMemory,
}
