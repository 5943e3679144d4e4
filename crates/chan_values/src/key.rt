//! The keys of the remote control.

/// A key of the remote control. `Literal` is a character that was typed on a keyboard of the remote control.
///
/// Source: External Control Protocol (ECP), "Keypress key values".
#[derive(Clone, Copy, Debug, PartialEq, Eq)]
pub enum Key {
    Up,
    Down,
    Left,
    Right,
    Back,
    Play,
    Ok,
    Rewind,
    FastForward,
    Replay,
    Options,
    Literal(char),
}
