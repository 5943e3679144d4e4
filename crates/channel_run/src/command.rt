//! The words after the program's name.
ghost use Rattle.std.specs.Prelude.{◌≡◌, None, Some, map, MatchOption};
ghost use Rattle.std.specs.String.{string_bytes};
ghost use Rattle.channel_run.specs.Command.{command_of, run_with};
ghost use Rattle.channel_run.specs.Decimal.{number_up_to};

use crate::decimal::number_up_to;

/// The most steps that a run may be given.
const MOST_STEPS: u32 = 4_000_000;

/// What is done with a channel folder.
#[derive(Clone, Copy)]
pub(crate) enum Work {
    /// Its first fault is found.
    Check,
    /// It runs under a script, for at most so many steps.
    Run(u32),
}

/// A command, `check F` or `run F N`.
#[derive(Clone, Copy)]
pub(crate) struct Command<'a> {
    /// The channel folder F.
    pub root: &'a str,
    /// What is done with it.
    pub work: Work,
}

fn run_command<'a>(root: &'a str, bound: &[u8]) -> Option<Command<'a>>
    ensures { MatchOption result (run_with root.now (number_up_to 4000000 bound.now) ≡ None)
        (λ command. run_with root.now (number_up_to 4000000 bound.now) ≡ Some (record { root = command.root.now; work = command.work })) }
{
    match number_up_to(bound, MOST_STEPS) {
        Some(bound) => Some(Command {
            root,
            work: Work::Run(bound),
        }),
        None => None,
    }
}

/// The command that the words spell, if they spell one.
pub(crate) fn read_words(words: &Vec<String>) -> Option<Command<'_>>
    ensures { MatchOption result (command_of (map string_bytes words.now.items) ≡ None)
        (λ command. command_of (map string_bytes words.now.items) ≡ Some (record { root = command.root.now; work = command.work })) }
{
    match words.as_slice() {
        [word, root] if word.as_str() == "check" && !root.as_str().is_empty() => Some(Command {
            root: root.as_str(),
            work: Work::Check,
        }),
        [word, root, bound] if word.as_str() == "run" && !root.as_str().is_empty() => {
            run_command(root.as_str(), bound.as_bytes())
        }
        _ => None,
    }
}
