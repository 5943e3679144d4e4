//! The faults of files as the refusal of a folder gives them.
ghost use Rattle.std.specs.Prelude.{◌≡◌, IfOk};
ghost use Rattle.channel_folder.specs.Answers.{Refuses};
ghost use Rattle.channel_folder.specs.Words as spec;

use crate::answer::CheckAnswer;
use brs_tokens::LexKind;
use chan_values::{FolderFault, NoMemory, Text, copy_text};
use component_sources::ComponentFault;
use file_faults::SourceFault;
use static_faults::StaticKind;
use std::alloc::Global;

fn lexical_word(kind: LexKind) -> &'static str
    ensures { result.now ≡ spec.lexical_word kind }
{
    match kind {
        LexKind::NotUtf8 => "NotUtf8",
        LexKind::BadCharacter => "BadCharacter",
        LexKind::OpenText => "OpenText",
        LexKind::FloatLiteral => "FloatLiteral",
        LexKind::Slash => "Slash",
        LexKind::NumberTooLarge => "NumberTooLarge",
    }
}

fn static_word(kind: StaticKind) -> &'static str
    ensures { result.now ≡ spec.static_word kind }
{
    match kind {
        StaticKind::ExitOutsideLoop => "ExitOutsideLoop",
        StaticKind::DuplicateParameter => "DuplicateParameter",
        StaticKind::DuplicateFunction => "DuplicateFunction",
        StaticKind::ReservedName => "ReservedName",
        StaticKind::ValueFromSub => "ValueFromSub",
    }
}

/// A place in a file.
#[derive(Clone, Copy)]
struct FaultPlace {
    line: u32,
    column: u32,
}

fn fault_at(
    alloc: Global,
    number: u8,
    path: &Text,
    place: FaultPlace,
    word: &str,
) -> Result<FolderFault, NoMemory>
    ensures { IfOk result (λ fault. fault ≡ spec.fault_at number path.now place.line place.column word.now) }
{
    let mut name = Text::new(alloc);
    name.push_str(word)?;
    Ok(FolderFault {
        number,
        path: copy_text(alloc, path)?,
        line: place.line,
        column: place.column,
        name,
    })
}

fn refusal(alloc: Global, number: u8, path: &Text, place: FaultPlace, word: &str) -> CheckAnswer
    ensures { Refuses (spec.fault_at number path.now place.line place.column word.now) result }
{
    match fault_at(alloc, number, path, place, word) {
        Ok(fault) => CheckAnswer::Fault(fault),
        Err(NoMemory) => CheckAnswer::NoMemory,
    }
}

/// The refusal of a source file for its fault.
pub(crate) fn refused_source(alloc: Global, path: &Text, fault: SourceFault) -> CheckAnswer
    ensures { Refuses (spec.source_fault path.now fault) result }
{
    match fault {
        SourceFault::Lexical(fault) => {
            let place = FaultPlace {
                line: fault.line,
                column: fault.column,
            };
            refusal(alloc, 5, path, place, lexical_word(fault.kind))
        }
        SourceFault::Syntax(fault) => {
            let place = FaultPlace {
                line: fault.line,
                column: fault.column,
            };
            refusal(alloc, 6, path, place, "")
        }
        SourceFault::Static(fault) => {
            let place = FaultPlace {
                line: fault.line,
                column: fault.column,
            };
            refusal(alloc, 7, path, place, static_word(fault.kind))
        }
    }
}

/// The refusal of a component file for its fault.
pub(crate) fn refused_component(alloc: Global, path: &Text, fault: ComponentFault) -> CheckAnswer
    ensures { Refuses (spec.component_fault path.now fault) result }
{
    match fault {
        ComponentFault::Element(fault) => {
            let place = FaultPlace {
                line: fault.line,
                column: 0,
            };
            refusal(alloc, 8, path, place, "")
        }
        ComponentFault::Script(fault) => refused_source(alloc, path, fault),
    }
}
