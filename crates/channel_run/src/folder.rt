//! A channel folder: its files, where it has no fault, and its Main, where that is of the first form.
ghost use Rattle.std.specs.Prelude.{◌≡◌, [], ℕ, None, IfOk, IfSome, IsTrue};
ghost use Rattle.std.specs.Option.{ForSome, option_copied};
ghost use Rattle.first_form.specs.FirstNames.{names_set};
ghost use Rattle.folder_files.specs.Answers.{CountsAnswer, ListsAtMost};
ghost use Rattle.folder_files.specs.Below.{files_below};
ghost use Rattle.folder_files.specs.SizeFaults.{first_size_fault};
ghost use Rattle.channel_run.specs.FirstFolder.{first_folder, first_source};
ghost use Rattle.channel_run.specs.Refusal.{ChecksAs};

use chan_values::{Bytes, NoMemory};
use channel_folder::{CheckAnswer, NoGate, check_folder};
use first_form::first_main;
use first_form::tree::FirstMain;
use folder_files::{FolderAnswer, read_folder};
use outside::files::{FileBytes, Files};
use outside::listing::Listing;
use std::alloc::Global;
use std::thread::Threads;

/// The files, where they have no fault.
fn checked<R: Threads>(rt: &R, alloc: Global, listing: Listing) -> Result<Listing, FolderAnswer>
    requires sizes { first_size_fault listing ≡ None }
    ensures checked { ChecksAs listing result }
    ensures bound { IfOk result (λ files. first_size_fault files ≡ None) }
    ensures cause { (faults : ℕ) → CountsAnswer faults faults result }
{
    match check_folder(rt, alloc, &listing, &NoGate) {
        Ok(_) => Ok(listing),
        Err(CheckAnswer::Fault(fault)) => Err(FolderAnswer::Fault(fault)),
        Err(CheckAnswer::NoMemory) => Err(FolderAnswer::NoMemory),
    }
}

/// The files below a root that a channel is read from, where they have no fault.
pub(crate) fn read_channel<R: Threads, F: Files>(
    rt: &R,
    alloc: Global,
    files: &mut F,
    root: &str,
) -> Result<Listing, FolderAnswer>
    ensures checked { ForSome (F.map files.old) (λ m. ChecksAs (files_below root.now m) result) }
    ensures bound { IfOk result (λ listing. first_size_fault listing ≡ None) }
    ensures map { F.map files.new ≡ F.map files.old }
    ensures roots { ListsAtMost (F.roots files.old) (F.roots files.new) root.now }
    ensures cause { CountsAnswer (F.faults files.old) (F.faults files.new) result }
{
    match read_folder(alloc, files, root) {
        Ok(listing) => checked(rt, alloc, listing),
        Err(answer) => Err(answer),
    }
}

/// What Main's file holds, where the files are a manifest and this one.
fn first_source(files: &[FileBytes]) -> Option<&Bytes>
    ensures { option_copied result ≡ first_source files.now }
{
    match files {
        [manifest, source]
            if manifest.path.as_str() == "manifest" && source.path.as_str() == "source/main.brs" =>
            { Some(&source.bytes) }
        _ => None,
    }
}

/// The tree of the Main of a folder without a fault, where it is of the first form.
pub(crate) fn first_folder(
    alloc: Global,
    files: &[FileBytes],
) -> Result<Option<FirstMain>, NoMemory>
    requires { first_size_fault files.now ≡ None }
    ensures main { IfOk result (λ main. main ≡ first_folder files.now) }
    ensures named { IfOk result (λ main. IfSome main (λ m. IsTrue (names_set [] m.lines))) }
{
    match first_source(files) {
        Some(source) => first_main(alloc, source.as_slice()),
        None => Ok(None),
    }
}
