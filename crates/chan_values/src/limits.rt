//! How deep a value is and how many parts it has.

/// The depth over which a value may not leave its actor.
pub const MAX_DEPTH: u32 = 64;

/// The number of parts over which a value may not leave its actor.
pub const MAX_PARTS: u32 = 65_536;

/// How deep a value is and how many parts it has.
#[derive(Clone, Copy, Debug, PartialEq, Eq)]
pub struct Measure {
    /// 0 for a plain value, and one more than the deepest item for an array or associative array.
    pub depth: u32,
    /// How many values it consists of, itself included.
    pub parts: u32,
}
