//! What a check of a channel's components answers.
ghost use Rattle.std.specs.Prelude.{◌≡◌, IfOk};
ghost use Rattle.folder_rules.specs.Answers.{Refuses};
ghost use Rattle.folder_rules.specs.Faults.{fault_on};

use chan_values::{FolderFault, NoMemory, Text, copy_text};
use std::alloc::{AllocError, AllocFailed, Global};

/// Why a channel's components give no tables.
#[derive(Debug, Drop)]
pub enum TablesAnswer {
    /// The first fault.
    Fault(FolderFault),
    NoMemory,
}

impl From<NoMemory> for TablesAnswer {
    ghost use Rattle.std.specs.Prelude.{◌≡◌};
    ghost use Rattle.folder_rules.specs.declared.answer.TablesAnswer.TheVariants as answer;

    ghost from_gives = { λ _ e. e ≡ answer.NoMemory };

    fn from(_: NoMemory) -> TablesAnswer {
        TablesAnswer::NoMemory
    }
}

impl From<AllocError> for TablesAnswer {
    ghost use Rattle.std.specs.Prelude.{◌≡◌};
    ghost use Rattle.folder_rules.specs.declared.answer.TablesAnswer.TheVariants as answer;

    ghost from_gives = { λ _ e. e ≡ answer.NoMemory };

    fn from(_: AllocError) -> TablesAnswer {
        TablesAnswer::NoMemory
    }
}

impl<T: Drop> From<AllocFailed<T>> for TablesAnswer {
    ghost use Rattle.std.specs.Prelude.{◌≡◌};
    ghost use Rattle.folder_rules.specs.declared.answer.TablesAnswer.TheVariants as answer;

    ghost from_gives = { λ _ e. e ≡ answer.NoMemory };

    fn from(_: AllocFailed<T>) -> TablesAnswer {
        TablesAnswer::NoMemory
    }
}

/// A fault on a line of a file.
pub fn fault_on(
    alloc: Global,
    number: u8,
    path: &Text,
    line: u32,
    name: Text,
) -> Result<FolderFault, NoMemory>
    ensures { IfOk result (λ fault. fault ≡ fault_on number path.now line name) }
{
    Ok(FolderFault {
        number,
        path: copy_text(alloc, path)?,
        line,
        column: 0,
        name,
    })
}

/// An answer of want of memory, or of a fault on a line of a file.
pub fn refusal(alloc: Global, number: u8, path: &Text, line: u32, name: Text) -> TablesAnswer
    ensures { Refuses (fault_on number path.now line name) result }
{
    match fault_on(alloc, number, path, line, name) {
        Ok(fault) => TablesAnswer::Fault(fault),
        Err(NoMemory) => TablesAnswer::NoMemory,
    }
}
