//! What the check of a folder answers in place of its channel.
ghost use Rattle.std.specs.Prelude.{◌≡◌};
ghost use Rattle.channel_folder.specs.Answers.{answer_of};

use chan_values::{FolderFault, NoMemory};
use folder_rules::TablesAnswer;
use std::alloc::AllocError;

/// Why a folder is no channel.
#[derive(Debug, Drop)]
pub enum CheckAnswer {
    /// The first fault.
    Fault(FolderFault),
    /// Memory ran out.
    NoMemory,
}

impl CheckAnswer {
    /// Of what a check of the components answers.
    pub(crate) fn of_tables(answer: TablesAnswer) -> CheckAnswer
        ensures { result ≡ answer_of answer }
    {
        match answer {
            TablesAnswer::Fault(fault) => CheckAnswer::Fault(fault),
            TablesAnswer::NoMemory => CheckAnswer::NoMemory,
        }
    }
}

impl From<NoMemory> for CheckAnswer {
    ghost use Rattle.std.specs.Prelude.{◌≡◌};
    ghost use Rattle.channel_folder.specs.declared.answer.CheckAnswer.TheVariants as answer;

    ghost from_gives = { λ _ e. e ≡ answer.NoMemory };

    fn from(_: NoMemory) -> CheckAnswer {
        CheckAnswer::NoMemory
    }
}

impl From<AllocError> for CheckAnswer {
    ghost use Rattle.std.specs.Prelude.{◌≡◌};
    ghost use Rattle.channel_folder.specs.declared.answer.CheckAnswer.TheVariants as answer;

    ghost from_gives = { λ _ e. e ≡ answer.NoMemory };

    fn from(_: AllocError) -> CheckAnswer {
        CheckAnswer::NoMemory
    }
}
