//! The host's files, with a count of their failures. What they hold is not told. Where a write breaks off in the middle of an
//! `append`, the bytes that the host took stay in the file.
ghost use Rattle.std.specs.Prelude.{◌≡◌, None, IfOk};
ghost use Rattle.outside.specs.Causes.{CountsFault};
ghost use Rattle.outside.specs.Folder.{IsListing, IsWithin};
ghost use Rattle.outside.specs.Told.{told_of_none};

use chan_values::{Bytes, Text};
use outside::faults::FilesFault;
use outside::files::{FileRead, Files};
use outside::listing::listing_of;
use outside::paths::is_read;
use std::alloc::{AllocError, Global};
use std::fs::OpenOptions;
use std::io::{Read, Write};
use std::rt::Files as System;
use std::{fs, io};

// At most this many bytes are read at a time.
const PIECE: usize = 4096;

// A folder whose path below the root has this many parts can hold no file that is read.
const DEEPEST: usize = 8;

/// The host's files. Paths are relative to the folder that the program runs in, or absolute.
#[derive(Drop)]
pub struct HostFiles<R> {
    system: R,
    alloc: Global,
    faults: u64,
}

impl<R: System + AllocGlobal + Clone + Drop> HostFiles<R> {
    /// No call has failed yet.
    pub fn new(system: R, alloc: Global) -> HostFiles<R>
        ensures { result.faults ≡ 0 }
    {
        HostFiles {
            system,
            alloc,
            faults: 0,
        }
    }
}

// A folder that is still to be looked through: its path, and its path below the root.
#[derive(Drop)]
struct Folder {
    path: String,
    below: String,
}

fn joined(alloc: Global, folder: &str, name: &str) -> Result<String, AllocError> {
    let mut path = String::from_str(alloc, folder)?;
    if !folder.is_empty() {
        path.push('/')?;
    }
    path.push_str(name)?;
    Ok(path)
}

// Whether a folder, by its path below the root, may hold a file that is read.
fn is_looked_through(below: &str) -> bool {
    let mut parts = below.split('/');
    match parts.next() {
        Some(first) => (first == "source" || first == "components") && parts.count() + 1 < DEEPEST,
        None => false,
    }
}

// Adds the files of a folder that are read to those found, and its folders to those still to be looked through. A link is
// neither a file nor a folder.
fn look_through<R: System + AllocGlobal + Clone + Drop>(
    system: &R,
    alloc: Global,
    at: &Folder,
    folders: &mut Vec<Folder>,
    found: &mut Vec<String>,
) -> io::Result<()> {
    for entry in fs::read_dir(system, at.path.as_str())? {
        let entry = entry?;
        let kind = entry.file_type()?;
        let below = joined(alloc, at.below.as_str(), entry.file_name())?;
        if kind.is_file() && is_read(below.as_str()) {
            found.push(below)?;
        } else if kind.is_dir() && is_looked_through(below.as_str()) {
            let path = joined(alloc, at.path.as_str(), entry.file_name())?;
            folders.push(Folder { path, below })?;
        }
    }
    Ok(())
}

fn found_below<R: System + AllocGlobal + Clone + Drop>(
    system: &R,
    alloc: Global,
    root: &str,
) -> io::Result<Vec<String>> {
    let mut found = Vec::new(alloc);
    let mut folders = Vec::new(alloc);
    folders.push(Folder {
        path: String::from_str(alloc, root)?,
        below: String::new(alloc),
    })?;
    for _ in 0..u64::MAX {
        let Some(at) = folders.pop() else {
            break;
        };
        look_through(system, alloc, &at, &mut folders, &mut found)?;
    }
    found.sort()?;
    Ok(found)
}

fn fault_of(error: &io::Error) -> FilesFault {
    if error.kind() == io::ErrorKind::OutOfMemory {
        FilesFault::NoMemory
    } else {
        FilesFault::Failed
    }
}

fn listed<R: System + AllocGlobal + Clone + Drop>(
    system: &R,
    alloc: Global,
    root: &str,
) -> Result<Vec<Text>, FilesFault>
    ensures { IfOk result (λ paths. IsListing paths.items) }
{
    match found_below(system, alloc, root) {
        Ok(found) => listing_of(alloc, found.as_slice()),
        Err(error) => Err(fault_of(&error)),
    }
}

// Reads to the end, or past the limit.
fn read_past<R: Read>(file: &mut R, limit: usize, bytes: &mut Bytes) -> Result<(), FilesFault> {
    let mut piece = [0u8; PIECE];
    for _ in 0..u64::MAX {
        match file.read(&mut piece) {
            Ok(0) => return Ok(()),
            Ok(count) => {
                if bytes.push_slice(&piece[..count]).is_err() {
                    return Err(FilesFault::NoMemory);
                }
                if bytes.len() > limit {
                    return Ok(());
                }
            }
            Err(error) => return Err(fault_of(&error)),
        }
    }
    Err(FilesFault::Failed)
}

fn read_file<R: System>(
    system: &R,
    alloc: Global,
    path: &str,
    limit: usize,
) -> Result<FileRead, FilesFault>
    ensures { IfOk result (λ read. IsWithin limit read) }
{
    let mut bytes = Bytes::new(alloc);
    match fs::open(system, path) {
        Ok(mut file) => read_past(&mut file, limit, &mut bytes)?,
        Err(error) => return Err(fault_of(&error)),
    }
    if bytes.len() <= limit {
        Ok(FileRead::Whole(bytes))
    } else {
        Ok(FileRead::Longer)
    }
}

// Adds bytes at the end of a file, which is made where it is missing.
fn append_to<R: System>(system: &R, path: &str, bytes: &[u8]) -> io::Result<()> {
    let mut options = OpenOptions::new();
    options.append(true).create(true);
    let mut file = options.open(system, path)?;
    file.write_all(bytes)
}

// Counts a failure.
fn counted<T>(faults: &mut u64, answer: Result<T, FilesFault>) -> Result<T, FilesFault>
    ensures same { result ≡ answer }
    ensures cause { CountsFault faults.old faults.new result }
{
    match answer {
        Ok(value) => Ok(value),
        Err(FilesFault::NoMemory) => Err(FilesFault::NoMemory),
        Err(FilesFault::Failed) => {
            *faults = faults.saturating_add(1);
            Err(FilesFault::Failed)
        }
    }
}

impl<R: System + AllocGlobal + Clone + Drop> Files for HostFiles<R> {
    ghost map = { λ _. None };

    ghost roots = { λ _. None };

    ghost faults = { λ f. f.faults };

    ghost distinct = { λ f files is. told_of_none files is };

    fn list(&mut self, root: &str) -> Result<Vec<Text>, FilesFault> {
        let answer = listed(&self.system, self.alloc, root);
        counted(&mut self.faults, answer)
    }

    fn read_whole(&mut self, path: &str, limit: usize) -> Result<FileRead, FilesFault> {
        let answer = read_file(&self.system, self.alloc, path, limit);
        counted(&mut self.faults, answer)
    }

    fn append(&mut self, path: &str, bytes: &[u8]) -> Result<(), FilesFault> {
        let answer = match append_to(&self.system, path, bytes) {
            Ok(()) => Ok(()),
            Err(error) => Err(fault_of(&error)),
        };
        counted(&mut self.faults, answer)
    }
}
