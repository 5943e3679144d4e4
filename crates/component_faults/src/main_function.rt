//! The function with which a channel starts.
ghost use Rattle.std.specs.Prelude.{◌≡◌};
ghost use Rattle.std.specs.List.{list_any};
ghost use Rattle.folder_rules.specs.Answers.{Finds};
ghost use Rattle.folder_rules.specs.Faults.{first};
ghost use Rattle.folder_rules.specs.ScriptFaults as spec;
ghost use Rattle.folder_rules.specs.Scripts.{is_in_source};

use chan_values::{FolderFault, Text};
use folder_rules::{DeclaredFunction, SourceFunctions, TablesAnswer};
use std::alloc::Global;
use xml_pieces::strip;

fn is_start(function: &DeclaredFunction) -> bool
    ensures { result ≡ spec.is_start function.now }
{
    let name = function.name.as_str();
    "main" == name || "runuserinterface" == name
}

fn any_start(mut functions: &[DeclaredFunction]) -> bool
    ensures { result ≡ list_any spec.is_start functions.entry.now }
{
    while let [function, rest @ ..] = functions {
        if is_start(function) {
            return true;
        }
        functions = rest;
    }
    false
}

fn is_in_source(source: &SourceFunctions) -> bool
    ensures { result ≡ is_in_source source.now }
{
    !source.inline && strip(b"source/", source.path.as_str().as_bytes()).is_some()
}

fn has_start(source: &SourceFunctions) -> bool
    ensures { result ≡ spec.has_start source.now }
{
    is_in_source(source) && any_start(source.functions.as_slice())
}

fn any_has_start(mut sources: &[SourceFunctions]) -> bool
    ensures { result ≡ list_any spec.has_start sources.entry.now }
{
    while let [source, rest @ ..] = sources {
        if has_start(source) {
            return true;
        }
        sources = rest;
    }
    false
}

/// The fault of a channel without a function to start with.
fn no_main(alloc: Global) -> FolderFault
    ensures { result ≡ spec.no_main_fault }
{
    FolderFault {
        number: 19,
        path: Text::new(alloc),
        line: 0,
        column: 0,
        name: Text::new(alloc),
    }
}

/// Refuses a channel without a function Main or RunUserInterface in a file under `source`. Takes no memory.
///
/// Source: BrightScript Language Reference, "Program Statements", Main.
pub fn check_main(alloc: Global, sources: &[SourceFunctions]) -> Result<(), TablesAnswer>
    ensures { Finds (λ found. found ≡ first (spec.no_main sources.now)) result }
{
    if any_has_start(sources) {
        Ok(())
    } else {
        Err(TablesAnswer::Fault(no_main(alloc)))
    }
}
