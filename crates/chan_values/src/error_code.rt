//! The run-time errors.
ghost use Rattle.std.specs.Prelude.{◌≡◌};
ghost use Rattle.chan_values.specs.ErrorNumber.{error_number};

/// A run-time error of a channel.
///
/// Source: BrightScript Language Reference, "Runtime Errors". The numbers are this project's own.
#[derive(Clone, Copy, Debug, PartialEq, Eq)]
pub enum ErrorCode {
    /// A name that is unset and no function.
    E1,
    /// A value of a wrong type.
    E2,
    /// A division or remainder by 0.
    E3,
    /// No such member on this kind of value.
    E4,
    /// A call of what is no function.
    E5,
    /// A number of arguments that the function cannot take.
    E6,
    /// A member or an index of `invalid`.
    E7,
    /// More calls in progress than one actor may have.
    E8,
    /// A value too deep or too large to leave its actor.
    E9,
    /// A wait in the render actor.
    E10,
    /// A node, port or actor past the last number.
    E11,
    /// A text, an array or an associative array that would grow too long.
    E12,
}

impl ErrorCode {
    /// The number that a transcript gives for the error, from 1 to 12.
    pub fn number(self) -> u8
        ensures { result ≡ error_number self }
    {
        match self {
            ErrorCode::E1 => 1,
            ErrorCode::E2 => 2,
            ErrorCode::E3 => 3,
            ErrorCode::E4 => 4,
            ErrorCode::E5 => 5,
            ErrorCode::E6 => 6,
            ErrorCode::E7 => 7,
            ErrorCode::E8 => 8,
            ErrorCode::E9 => 9,
            ErrorCode::E10 => 10,
            ErrorCode::E11 => 11,
            ErrorCode::E12 => 12,
        }
    }
}
