//! Why a run ends.

/// The reason for which a run ends.
#[derive(Clone, Copy, Debug, PartialEq, Eq)]
pub enum EndReason {
    /// The function of the main actor returned.
    Main,
    /// A run-time error in the render actor or the main actor.
    Error,
    /// A press of the key back that no handler took.
    Back,
    /// A step was asked for while the bound on steps was used up.
    Steps,
    /// The script was read to its end.
    Script,
    /// A step was asked for that this version cannot make yet.
    Unbuilt,
}
