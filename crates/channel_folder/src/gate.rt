//! Where the halves of a check begin.

/// What is told when a half of the files begins.
pub trait Gate: Sync {
    /// The half, 0 or 1, begins: none of its files was looked at yet.
    fn enter(&self, half: u8);
}

/// A gate that does nothing.
#[derive(Clone, Copy, Debug)]
pub struct NoGate;

impl Gate for NoGate {
    fn enter(&self, _half: u8) {}
}
