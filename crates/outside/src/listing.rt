//! What is listed: files ascending by their paths, and the paths alone.
ghost use Rattle.std.specs.Prelude.{◌≡◌, ◌↔◌, ◌<◌, ◌++◌, ◌∷◌, [], IsTrue, IfOk, IfErr, OnOk, OnErr, IsErrOf, Err, map, length, slice_get};
ghost use Rattle.std.specs.Option.{option_copied};
ghost use Rattle.std.specs.String.{string_bytes};
ghost use Rattle.outside.specs.Folder.{IsListing, MayCome, MayFollow, IsMap, appended, content_of};
ghost use Rattle.outside.specs.Place.{IsPlaceOf, IsGapFor};

use crate::faults::FilesFault;
use crate::files::FileBytes;
use crate::paths::{is_before, is_read};
use chan_values::{Bytes, NoMemory, Text};
use std::alloc::Global;
use std::cmp::Ordering;
use std::marker::Model;

/// Files, strictly ascending by the bytes of their paths. Contracts see the list of the files.
#[derive(Debug, Drop)]
pub struct Listing {
    files: Vec<FileBytes>,
}

impl Model for Listing {
    ghost use Rattle.std.specs.Prelude.{List};
    ghost use Rattle.outside.specs.declared.files.FileBytes.{FileBytes};
    ghost use Rattle.outside.specs.Folder.{IsMap};

    ghost Value = { List FileBytes };

    ghost view = { λ l. l.files.items };

    ghost invariant = { λ l. IsMap l.files.items };
}

// The place of the file with this path, or the place at which such a file would stand.
fn place_of(files: &[FileBytes], path: &str) -> Result<usize, usize>
    ensures found { IfOk result (IsPlaceOf files.now path.now) }
    ensures missing { IfErr result (IsGapFor files.now path.now) }
{
    for (at, file) in files.iter().enumerate() {
        match file.path.as_str().cmp(&path) {
            Ordering::Less => {}
            Ordering::Equal => return Ok(at),
            Ordering::Greater => return Err(at),
        }
    }
    Err(files.len())
}

fn file_of(alloc: Global, path: &str, bytes: &[u8]) -> Result<FileBytes, NoMemory>
    ensures { IfOk result (λ file. file ≡ record { path = path.now; bytes = bytes.now }) }
{
    let mut file = FileBytes {
        path: Text::new(alloc),
        bytes: Bytes::new(alloc),
    };
    file.path.push_str(path)?;
    file.bytes.push_slice(bytes)?;
    Ok(file)
}

// Adds bytes at the end of the file with this path, which is made where it is missing.
#[tactic(auto, using(crate::proofs::Appending::appended_here, crate::proofs::Appending::appended_gap))]
fn append_to(
    alloc: Global,
    files: &mut Vec<FileBytes>,
    path: &str,
    bytes: &[u8],
) -> Result<(), NoMemory>
    ensures ok { OnOk result (files.new.items ≡ appended path.now bytes.now files.old.items) }
    ensures err { OnErr result (files.new.items ≡ files.old.items) }
{
    match place_of(files.as_slice(), path) {
        Ok(at) => files[at].bytes.push_slice(bytes),
        Err(at) => {
            let file = file_of(alloc, path, bytes)?;
            match files.insert(at, file) {
                Ok(()) => Ok(()),
                Err(_) => Err(NoMemory),
            }
        }
    }
}

impl Listing {
    /// No files. Takes no memory.
    #[tactic(auto, using(crate::proofs::Below::map_none))]
    pub fn new(alloc: Global) -> Listing
        ensures files { result ≡ [] }
        ensures map { IsMap result }
    {
        Listing {
            files: Vec::new(alloc),
        }
    }

    /// Whether a file with this path may be added at the end, which is where the path comes after those that are there.
    pub fn may_push(&self, path: &str) -> bool
        ensures { IsTrue result ↔ MayCome (map (λ file. file.path) self.now) path.now }
    {
        match self.files.last() {
            Some(file) => is_before(file.path.as_str(), path),
            None => true,
        }
    }

    /// Adds a file at the end, whose path comes after those that are there. After an `Err` nothing has changed.
    #[tactic(auto, using(crate::proofs::Below::map_grown))]
    pub fn push(&mut self, file: FileBytes) -> Result<(), NoMemory>
        requires { MayCome (map (λ file. file.path) self.old) file.path }
        ensures ok { OnOk result (self.new ≡ self.old ++ file ∷ []) }
        ensures err { OnErr result (self.new ≡ self.old) }
        ensures map { IsMap self.new }
    {
        match self.files.push(file) {
            Ok(()) => Ok(()),
            Err(_) => Err(NoMemory),
        }
    }

    /// Adds bytes at the end of the file with this path, which is made at its place where it is missing. After an `Err` nothing
    /// has changed.
    #[tactic(auto, using(crate::proofs::Appending::map_appended))]
    pub fn append(&mut self, alloc: Global, path: &str, bytes: &[u8]) -> Result<(), NoMemory>
        ensures ok { OnOk result (self.new ≡ appended path.now bytes.now self.old) }
        ensures err { OnErr result (self.new ≡ self.old) }
        ensures map { IsMap self.new }
    {
        append_to(alloc, &mut self.files, path, bytes)
    }

    /// How many files there are.
    pub fn len(&self) -> usize
        ensures { result ≡ length self.now }
    {
        self.files.len()
    }

    /// Whether there is no file.
    pub fn is_empty(&self) -> bool
        ensures { IsTrue result ↔ (self.now ≡ []) }
    {
        self.files.is_empty()
    }

    /// The file at a place, counted from 0, `None` exactly past the end.
    pub fn get(&self, at: usize) -> Option<&FileBytes>
        ensures { option_copied result ≡ slice_get self.now at }
    {
        self.files.get(at)
    }

    /// The files.
    pub fn as_slice(&self) -> &[FileBytes]
        ensures files { result.now ≡ self.now }
        ensures map { IsMap self.now }
    {
        self.files.as_slice()
    }
}

// Whether a path may follow the paths of a listing.
fn may_follow(paths: &[Text], path: &str) -> bool
    ensures { IsTrue result ↔ MayFollow paths.now path.now }
{
    match paths.last() {
        Some(last) => is_before(last.as_str(), path) && is_read(path),
        None => is_read(path),
    }
}

// Adds a path.
fn add(alloc: Global, paths: &mut Vec<Text>, path: &str) -> Result<(), FilesFault>
    ensures ok { OnOk result (paths.new.items ≡ paths.old.items ++ path.now ∷ []) }
    ensures err { OnErr result (result ≡ Err FilesFault.NoMemory) }
{
    let mut copy = Text::new(alloc);
    if copy.push_str(path).is_err() {
        return Err(FilesFault::NoMemory);
    }
    match paths.push(copy) {
        Ok(()) => Ok(()),
        Err(_) => Err(FilesFault::NoMemory),
    }
}

/// The paths as a listing. `Failed` comes only where they are none: where they do not ascend strictly by their bytes, or a
/// channel is not read from one of them.
#[tactic(auto, using(crate::proofs::Below::listing_none, crate::proofs::Names::names_all, crate::proofs::Names::listing_follows))]
pub fn listing_of(alloc: Global, found: &[String]) -> Result<Vec<Text>, FilesFault>
    ensures paths { IfOk result (λ paths. paths.items ≡ map string_bytes found.now) }
    ensures listing { IfOk result (λ paths. IsListing paths.items) }
    ensures failed { IsErrOf result FilesFault.Failed → ¬ IsListing (map string_bytes found.now) }
{
    let mut paths: Vec<Text> = Vec::new(alloc);
    for path in found {
        if !may_follow(paths.as_slice(), path.as_str()) {
            return Err(FilesFault::Failed);
        }
        add(alloc, &mut paths, path.as_str())?;
    }
    Ok(paths)
}
