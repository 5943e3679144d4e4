//! The named functions of a source text.
ghost use Rattle.std.specs.Prelude.{◌≡◌, IfOk, map};
ghost use Rattle.channel_folder.specs.DeclaredFunctions as spec;

use brs_forms::readable_text;
use brs_grammar::tree::{Name, NamedFunction};
use brs_parser::ParsedFile;
use chan_values::{NoMemory, Text, copy_text, fold_name};
use folder_rules::{DeclaredFunction, SourceFunctions};
use sqlite_items::Items;
use std::alloc::Global;

fn name_of(function: &NamedFunction) -> &Name
    ensures { result.now ≡ spec.name_of function.now }
{
    match function {
        NamedFunction::Function(_, name, _) => name,
        NamedFunction::Sub(_, name, _) => name,
    }
}

fn declared(alloc: Global, function: &NamedFunction) -> Result<DeclaredFunction, NoMemory>
    ensures { IfOk result (λ declared. declared ≡ spec.declared function.now) }
{
    let name = name_of(function);
    let text = readable_text(alloc, name.text.as_slice())?;
    let folded = fold_name(alloc, text.as_str().as_bytes())?;
    Ok(DeclaredFunction {
        name: folded,
        line: name.place.line,
        column: name.place.column,
    })
}

fn all_declared(
    alloc: Global,
    functions: &[NamedFunction],
) -> Result<Items<DeclaredFunction>, NoMemory>
    ensures { IfOk result (λ all. all ≡ map spec.declared functions.now) }
{
    let mut all = Items::new(alloc);
    for function in functions {
        if all.push(declared(alloc, function)?).is_err() {
            return Err(NoMemory);
        }
    }
    Ok(all)
}

/// The functions of a source file, or of an inline script of the component file of this path.
pub(crate) fn source_of(
    alloc: Global,
    path: &Text,
    inline: bool,
    file: &ParsedFile,
) -> Result<SourceFunctions, NoMemory>
    ensures { IfOk result (λ source. source ≡ spec.source_of path.now inline file.now) }
{
    let functions = all_declared(alloc, file.tree().functions.as_slice())?;
    Ok(SourceFunctions {
        path: copy_text(alloc, path)?,
        inline,
        functions,
    })
}
