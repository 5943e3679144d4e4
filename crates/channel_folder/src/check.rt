//! The check of a channel's folder.
ghost use Rattle.std.specs.Prelude.{◌≡◌, ◌≤◌, ◌<◌, Option, None, IfOk};
ghost use Rattle.chan_values.specs.declared.folder_fault.FolderFault.{FolderFault as Refused};
ghost use Rattle.folder_files.specs.Manifest as manifest;
ghost use Rattle.folder_files.specs.SizeFaults.{first_size_fault};
ghost use Rattle.folder_rules.specs.FirstFault as components;
ghost use Rattle.script_faults.specs.Sources.{function_count};
ghost use Rattle.channel_folder.specs.Answers.{Finds};
ghost use Rattle.channel_folder.specs.Contents.{Hold};
ghost use Rattle.channel_folder.specs.FolderFaults.{IsFirstFault};

use crate::answer::CheckAnswer;
use crate::contents::Contents;
use crate::files::read_files;
use crate::gate::Gate;
use crate::laws::{few_functions, one_first_fault};
use component_scopes::first_fault;
use folder_files::first_manifest_fault;
use folder_rules::{PathedComponent, SourceFunctions};
use outside::files::FileBytes;
use outside::listing::Listing;
use std::alloc::Global;
use std::marker::Model;
use std::thread::Threads;

/// A channel whose folder has no fault. Only `check_folder` makes one. Contracts see what its files hold.
pub struct Channel {
    contents: Contents,
}

impl Model for Channel {
    ghost use Rattle.std.specs.Coded.{codes};
    ghost use Rattle.component_files.specs.contracts.element.ChildElement as child;
    ghost use Rattle.channel_folder.specs.declared.contents.Contents.{Contents};

    ghost Value = { Contents };

    ghost coded = { Prim.hlevel (codes, child.the_row.coded) };

    ghost view = { λ channel. channel.contents };
}

// By hand, so that what stands above drops a channel by one call.
impl Drop for Channel {
    fn drop(self) {
        let Channel {
            contents: _contents,
        } = self;
    }
}

impl Channel {
    /// The component files, in order of path. Takes no memory.
    pub fn components(&self) -> &[PathedComponent]
        ensures { result.now ≡ self.now.components }
    {
        self.contents.components.as_slice()
    }

    /// The functions of the source texts, in order of path; those of a component's inline scripts in their order in the component. Takes no memory.
    pub fn sources(&self) -> &[SourceFunctions]
        ensures { result.now ≡ self.now.sources }
    {
        self.contents.sources.as_slice()
    }
}

fn check_manifest(alloc: Global, files: &[FileBytes]) -> Result<(), CheckAnswer>
    requires sizes { first_size_fault files.now ≡ None }
    ensures { Finds (λ found. found ≡ manifest.first_manifest_fault files.now) result }
{
    match first_manifest_fault(alloc, files) {
        Ok(None) => Ok(()),
        Ok(Some(fault)) => Err(CheckAnswer::Fault(fault)),
        Err(_) => Err(CheckAnswer::NoMemory),
    }
}

fn check_components(alloc: Global, contents: &Contents) -> Result<(), CheckAnswer>
    requires few { function_count contents.now.sources < 4294967296 }
    ensures { Finds (components.IsFirstFault contents.now.components contents.now.sources) result }
{
    match first_fault(
        alloc,
        contents.components.as_slice(),
        contents.sources.as_slice(),
    ) {
        Ok(()) => Ok(()),
        Err(answer) => Err(CheckAnswer::of_tables(answer)),
    }
}

/// The channel of files whose sizes have no fault, or their first fault.
fn channel_of<G: Gate>(alloc: Global, files: &[FileBytes], gate: &G) -> Result<Channel, CheckAnswer>
    requires sizes { first_size_fault files.now ≡ None }
    ensures first { Finds (IsFirstFault files.now) result }
    ensures held { IfOk result (λ channel. Hold files.now channel) }
{
    let read = read_files(alloc, files, gate);
    check_manifest(alloc, files)?;
    let contents = read?;
    few_functions();
    check_components(alloc, &contents)?;
    Ok(Channel { contents })
}

/// The channel of a folder, or the folder's first fault: of the manifest; else of the first file that has one, by path; else of the components and
/// their scripts, which are looked at only where no file has a fault. `rt` is not used yet.
///
/// Each half of the files, of which the first has one more where their number is odd, enters the gate once, before its first file. A half without
/// files enters it too.
///
/// Takes time that grows with the number of bytes, and with the number of components times that of their bases.
///
/// Source: Roku developer documentation, "Channel manifest"; BrightScript Language Reference; SceneGraph XML Guide.
pub fn check_folder<R: Threads, G: Gate>(
    _rt: &R,
    alloc: Global,
    listing: &Listing,
    gate: &G,
) -> Result<Channel, CheckAnswer>
    requires sizes { first_size_fault listing.now ≡ None }
    // What is answered is right.
    ensures first { Finds (IsFirstFault listing.now) result }
    ensures held { IfOk result (λ channel. Hold listing.now channel) }
    ensures few { IfOk result (λ channel. function_count channel.sources ≤ 16777216) }
    // What is right is answered, unless memory runs out.
    ensures all { (found : Option Refused) → IsFirstFault listing.now found → Finds (λ o. o ≡ found) result }
{
    one_first_fault();
    few_functions();
    channel_of(alloc, listing.as_slice(), gate)
}
