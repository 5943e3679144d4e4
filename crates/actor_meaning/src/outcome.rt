//! What a step shows, and what the world hands to an actor.

use chan_values::{Access, ArgumentList, ErrorCode, Message, Place, Portable, Text};

/// What an actor asks of the world.
#[derive(Debug, Drop)]
pub enum Request {
    /// A call that touches a node.
    Access(Access),
    /// A new message port.
    MakePort,
    /// The next message of the port, for a time that is above 0 where the second part is true, else without limit.
    ///
    /// Source: BrightScript, "wait" and "ifMessagePort".
    Wait(u32, bool),
    /// The first message of the port, if there is one.
    ///
    /// Source: BrightScript, "ifMessagePort".
    Poll(u32),
}

/// What a step shows.
#[derive(Debug, Drop)]
pub enum Outcome {
    /// Nothing.
    Went,
    /// An open want.
    Wants(Request),
    Printed(Text),
    /// A run-time error, which has ended all calls of the actor.
    Raised(ErrorCode, Place),
    /// A call that was put on top has returned this value.
    Returned(Portable),
    /// A call that was put on top has returned a value that is too deep or too large to leave its actor.
    TooBig(Place),
}

/// The answer to an open want.
#[derive(Debug, Drop)]
pub enum Answer {
    Value(Portable),
    Message(Message),
    /// An error, which the call that wanted raises in its next step.
    Failed(ErrorCode),
}

/// The arguments of a call that is put on top.
#[derive(Debug, Drop)]
pub enum Arguments {
    Values(ArgumentList),
    /// The message, where the function has a parameter.
    Message(Message),
    /// A new empty associative array, where the function has a parameter.
    Start,
}
