//! Why nothing is read.

use chan_values::NoMemory;
use std::alloc::{AllocError, AllocFailed};

/// Why nothing is read.
#[derive(Clone, Copy, Debug, PartialEq, Eq)]
pub enum ReadError {
    /// What should be read does not stand there.
    Fault,
    NoMemory,
}

impl From<AllocError> for ReadError {
    ghost use Rattle.std.specs.Prelude.{◌≡◌};
    ghost use Rattle.xml_pieces.specs.declared.read_error.ReadError.TheVariants as answer;

    ghost from_gives = { λ _ e. e ≡ answer.NoMemory };

    fn from(_: AllocError) -> ReadError {
        ReadError::NoMemory
    }
}

impl<T: Drop> From<AllocFailed<T>> for ReadError {
    ghost use Rattle.std.specs.Prelude.{◌≡◌};
    ghost use Rattle.xml_pieces.specs.declared.read_error.ReadError.TheVariants as answer;

    ghost from_gives = { λ _ e. e ≡ answer.NoMemory };

    fn from(_: AllocFailed<T>) -> ReadError {
        ReadError::NoMemory
    }
}

impl From<NoMemory> for ReadError {
    ghost use Rattle.std.specs.Prelude.{◌≡◌};
    ghost use Rattle.xml_pieces.specs.declared.read_error.ReadError.TheVariants as answer;

    ghost from_gives = { λ _ e. e ≡ answer.NoMemory };

    fn from(_: NoMemory) -> ReadError {
        ReadError::NoMemory
    }
}
