//! Where something stands in the source of a channel.

/// A place in the source of a channel.
#[derive(Clone, Copy, Debug, PartialEq, Eq)]
pub struct Place {
    /// The number of the file, counted from 0 in byte order of the paths.
    pub path: u32,
    /// The line, counted from 1.
    pub line: u32,
}
