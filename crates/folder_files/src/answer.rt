//! What reading a folder answers in place of its files.

use chan_values::{FolderFault, NoMemory};
use outside::faults::FilesFault;

/// Why a folder gives no listing.
#[derive(Debug, Drop)]
pub enum FolderAnswer {
    /// There are too many files or bytes, or a file is too long.
    Fault(FolderFault),
    /// A call on the files failed.
    ReadFault,
    /// Memory ran out.
    NoMemory,
}

impl From<NoMemory> for FolderAnswer {
    ghost use Rattle.std.specs.Prelude.{◌≡◌};
    ghost use Rattle.folder_files.specs.declared.answer.FolderAnswer.TheVariants as answer;

    ghost from_gives = { λ _ e. e ≡ answer.NoMemory };

    fn from(_: NoMemory) -> FolderAnswer {
        FolderAnswer::NoMemory
    }
}
