//! The files of a folder, read one after another.
ghost use Rattle.std.specs.Prelude.{◌≡◌, ◌≤◌, ◌++◌, [], List, length, map, true, Err, IfOk, OnOk};
ghost use Rattle.chan_values.specs.declared.folder_fault.FolderFault.{FolderFault as Refused};
ghost use Rattle.folder_files.specs.SizeFaults.{too_long};
ghost use Rattle.outside.specs.declared.files.FileBytes.{FileBytes as File};
ghost use Rattle.channel_folder.specs.Contents.{Adds, AddsAs, Hold, IsFirstOfFiles};
ghost use Rattle.channel_folder.specs.DeclaredFunctions.{source_of};
ghost use Rattle.channel_folder.specs.FileFaults.{IsFaultAs, IsFaultOf, both, of_component};
ghost use Rattle.channel_folder.specs.declared.answer.CheckAnswer;
ghost use Rattle.channel_folder.specs.declared.kind.FileKind;

use crate::answer::CheckAnswer;
use crate::contents::Contents;
use crate::faults::{refused_component, refused_source};
use crate::functions::source_of;
use crate::gate::Gate;
use crate::kind::{FileKind, kind_of};
use brs_parser::ParsedFile;
use chan_values::{NoMemory, Text, copy_text};
use component_sources::{CheckedComponent, ComponentFileAnswer, read_component_file};
use file_faults::{SourceAnswer, read_source};
use folder_rules::{PathedComponent, SourceFunctions};
use outside::files::FileBytes;
use sqlite_items::Items;
use std::alloc::Global;

fn read_source_file(
    alloc: Global,
    file: &FileBytes,
    contents: &mut Contents,
) -> Result<(), CheckAnswer>
    requires short { length file.now.bytes ≤ 1048576 }
    ensures held { OnOk result (AddsAs FileKind.Source file.now contents.old contents.new) }
    ensures fault { (f : Refused) → result ≡ Err (CheckAnswer.Fault f) → IsFaultAs FileKind.Source file.now f }
{
    match read_source(alloc, file.bytes.as_slice(), 1) {
        Ok(tree) => {
            let source = source_of(alloc, &file.path, false, &tree)?;
            contents.sources.push(source)?;
            Ok(())
        }
        Err(SourceAnswer::Fault(fault)) => Err(refused_source(alloc, &file.path, fault)),
        Err(SourceAnswer::NoMemory) => Err(CheckAnswer::NoMemory),
    }
}

/// Adds the functions of the inline scripts of the component file of this path.
fn add_scripts(
    alloc: Global,
    path: &Text,
    scripts: &[ParsedFile],
    sources: &mut Items<SourceFunctions>,
) -> Result<(), NoMemory>
    ensures { OnOk result (sources.new ≡ sources.old ++ map (source_of path.now true) scripts.now) }
{
    for script in scripts {
        if sources.push(source_of(alloc, path, true, script)?).is_err() {
            return Err(NoMemory);
        }
    }
    Ok(())
}

fn add_component(
    alloc: Global,
    path: &Text,
    component: CheckedComponent,
    contents: &mut Contents,
) -> Result<(), CheckAnswer>
    ensures held { OnOk result (contents.new ≡ both contents.old (of_component path.now component)) }
    ensures fault { (f : Refused) → result ≡ Err (CheckAnswer.Fault f) → ⊥ }
{
    let CheckedComponent { file, scripts } = component;
    add_scripts(alloc, path, scripts.as_slice(), &mut contents.sources)?;
    let path = copy_text(alloc, path)?;
    contents.components.push(PathedComponent { path, file })?;
    Ok(())
}

fn read_component_of(
    alloc: Global,
    file: &FileBytes,
    contents: &mut Contents,
) -> Result<(), CheckAnswer>
    requires short { length file.now.bytes ≤ 1048576 }
    ensures held { OnOk result (AddsAs FileKind.Component file.now contents.old contents.new) }
    ensures fault { (f : Refused) → result ≡ Err (CheckAnswer.Fault f) → IsFaultAs FileKind.Component file.now f }
{
    match read_component_file(alloc, file.bytes.as_slice()) {
        Ok(component) => add_component(alloc, &file.path, component, contents),
        Err(ComponentFileAnswer::Fault(fault)) => Err(refused_component(alloc, &file.path, fault)),
        Err(ComponentFileAnswer::NoMemory) => Err(CheckAnswer::NoMemory),
    }
}

fn add_file(alloc: Global, file: &FileBytes, contents: &mut Contents) -> Result<(), CheckAnswer>
    requires short { length file.now.bytes ≤ 1048576 }
    ensures held { OnOk result (Adds file.now contents.old contents.new) }
    ensures fault { (f : Refused) → result ≡ Err (CheckAnswer.Fault f) → IsFaultOf file.now f }
{
    match kind_of(file.path.as_str()) {
        FileKind::Source => read_source_file(alloc, file, contents),
        FileKind::Component => read_component_of(alloc, file, contents),
        FileKind::Other => Ok(()),
    }
}

/// Adds what the files hold, which come in order of path after those before, or gives the fault of the first that has one.
fn add_files(alloc: Global, files: &[FileBytes], contents: &mut Contents) -> Result<(), CheckAnswer>
    requires short { too_long files.now ≡ [] }
    ensures held { OnOk result ((before : List File) → Hold before contents.old → Hold (before ++ files.now) contents.new) }
    ensures fault { (f : Refused) (before after : List File) → result ≡ Err (CheckAnswer.Fault f) → Hold before contents.old → IsFirstOfFiles (before ++ (files.now ++ after)) f }
{
    for file in files {
        add_file(alloc, file, contents)?;
    }
    Ok(())
}

/// What the files hold, which stand in order of path, or the fault of the first that has one. Both halves of the files enter the gate, each before its
/// first file is looked at.
///
/// Takes time that grows with the number of bytes.
///
/// Source: BrightScript Language Reference; SceneGraph XML Guide, "Component Definition".
pub(crate) fn read_files<G: Gate>(
    alloc: Global,
    files: &[FileBytes],
    gate: &G,
) -> Result<Contents, CheckAnswer>
    requires short { too_long files.now ≡ [] }
    ensures held { IfOk result (λ held. Hold files.now held) }
    ensures fault { (f : Refused) → result ≡ Err (CheckAnswer.Fault f) → IsFirstOfFiles files.now f }
{
    let mut contents = Contents::new(alloc);
    let (first, second) = files.split_at(files.len() - files.len() / 2);
    gate.enter(0);
    let answer = add_files(alloc, first, &mut contents);
    gate.enter(1);
    answer?;
    add_files(alloc, second, &mut contents)?;
    Ok(contents)
}
