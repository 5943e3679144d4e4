//! What a line of a script says.

use crate::Key;

/// An event of a run: what one line of a script asks for. Actors and ports are given by their numbers.
#[derive(Clone, Copy, Debug, PartialEq, Eq)]
pub enum Event {
    /// A key, and whether it is pressed; else it is released.
    Key(Key, bool),
    /// An actor, and the most steps that it makes.
    Turn(u32, u32),
    /// The most steps that each actor makes, in ascending order.
    Round(u32),
    /// The actor whose wait ends without a message.
    Expire(u32),
}
