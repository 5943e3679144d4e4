//! Files in memory.
ghost use Rattle.std.specs.Prelude.{◌≡◌, ◌↔◌, ◌+◌, ◌-◌, ◌^◌, ◌<◌, ◌≤◌, length, min, map, [], ◌∷◌, ◌++◌, Contains, IsSome, IsTrue, Some, IfOk, IfSome, OnOk, OnErr, IsErrOf};
ghost use Rattle.std.specs.Option.{ForSome, option_copied};
ghost use Rattle.std.proofs.Props.{props};
ghost use Rattle.outside.specs.Causes.{CountsFault};
ghost use Rattle.outside.specs.Folder.{IsMap, IsListing, MayCome, paths_below, content_of, read_of, IsWithin, Grows, FilesGrow};
ghost use Rattle.outside.specs.Told.{told_map};

use crate::calls::Calls;
use crate::faults::FilesFault;
use crate::files::{FileBytes, FileRead, Files};
use crate::listing::Listing;
use crate::paths::below_root;
use chan_values::{Bytes, NoMemory, Text};
use std::alloc::Global;

/// Files in memory, ascending by their whole paths.
#[derive(Debug, Drop)]
pub struct MemoryFiles {
    /// The files.
    pub files: Listing,
    /// The roots that were listed.
    pub roots: Vec<Text>,
    /// The calls of `list`, `read_whole` and `append`.
    pub calls: Calls,
    /// Where the answers take their memory.
    pub alloc: Global,
    ghost ascending: { IsMap files } by { Prim.hlevel props },
}

impl MemoryFiles {
    /// No files.
    pub fn new(alloc: Global, calls: Calls) -> MemoryFiles
        ensures files { result.files ≡ [] }
        ensures roots { result.roots.items ≡ [] }
        ensures calls { result.calls ≡ calls }
    {
        MemoryFiles {
            files: Listing::new(alloc),
            roots: Vec::new(alloc),
            calls,
            alloc,
        }
    }

    /// Whether a file with this path may be added, which is where the path comes after those that are there.
    pub fn may_push(&self, path: &str) -> bool
        ensures { IsTrue result ↔ MayCome (map (λ file. file.path) self.now.files) path.now }
    {
        self.files.may_push(path)
    }

    /// Adds a file, whose path comes after those that are there. After an `Err` nothing has changed.
    pub fn push(&mut self, file: FileBytes) -> Result<(), NoMemory>
        requires { MayCome (map (λ file. file.path) self.old.files) file.path }
        ensures ok { OnOk result (self.new.files ≡ self.old.files ++ file ∷ []) }
        ensures err { OnErr result (self.new.files ≡ self.old.files) }
        ensures others { (self.new.calls ≡ self.old.calls) × (self.new.roots ≡ self.old.roots) }
    {
        self.files.push(file)
    }
}

fn copied_text(alloc: Global, text: &str) -> Result<Text, NoMemory>
    ensures { IfOk result (λ copy. copy ≡ text.now) }
{
    let mut copy = Text::new(alloc);
    copy.push_str(text)?;
    Ok(copy)
}

#[tactic(auto, using(crate::proofs::Below::paths_below_step))]
fn list_below(alloc: Global, root: &str, files: &[FileBytes]) -> Result<Vec<Text>, NoMemory>
    requires { IsMap files.now }
    ensures told { IfOk result (λ paths. paths.items ≡ paths_below root.now files.now) }
    ensures listing { IfOk result (λ paths. IsListing paths.items) }
{
    let mut paths = Vec::new(alloc);
    for file in files {
        if let Some(rest) = below_root(root, file.path.as_str()) {
            let path = copied_text(alloc, rest)?;
            if paths.push(path).is_err() {
                return Err(NoMemory);
            }
        }
    }
    Ok(paths)
}

#[tactic(auto, using(crate::proofs::Below::content_of_step))]
fn find<'a>(files: &'a [FileBytes], path: &str) -> Option<&'a Bytes>
    ensures { option_copied result ≡ content_of files.now path.now }
{
    for file in files {
        if file.path.as_str() == path {
            return Some(&file.bytes);
        }
    }
    None
}

fn read_up_to(alloc: Global, bytes: &Bytes, limit: usize) -> Result<FileRead, NoMemory>
    ensures { IfOk result (λ read. read ≡ read_of limit bytes.now) }
{
    if bytes.len() > limit {
        return Ok(FileRead::Longer);
    }
    let mut copy = Bytes::new(alloc);
    copy.push_slice(bytes.as_slice())?;
    Ok(FileRead::Whole(copy))
}

impl Files for MemoryFiles {
    ghost map = { λ f. Some f.files };

    ghost roots = { λ f. Some f.roots.items };

    ghost faults = { λ f. f.calls.faults };

    ghost distinct = { λ f files is. told_map f.files files f.ascending is };

    fn list(&mut self, root: &str) -> Result<Vec<Text>, FilesFault>
        ensures listing { IfOk result (λ paths. IsListing paths.items) }
        ensures told { IfOk result (λ paths. ForSome (Some self.old.files) (λ files. paths.items ≡ paths_below root.now files)) }
        ensures map { Some self.new.files ≡ Some self.old.files }
        ensures roots { OnOk result (Grows (Some self.old.roots.items) (Some self.new.roots.items) (root.now ∷ [])) }
        ensures err { OnErr result (Some self.new.roots.items ≡ Some self.old.roots.items) }
        ensures cause { CountsFault self.old.calls.faults self.new.calls.faults result }
        ensures fails { IsErrOf result FilesFault.Failed ↔ Contains self.old.calls.failing.items self.old.calls.made }
        ensures made { self.new.calls.made ≡ min (self.old.calls.made + 1) (2 ^ 64 - 1) }
        ensures failing { self.new.calls.failing ≡ self.old.calls.failing }
    {
        if self.calls.begin().is_err() {
            return Err(FilesFault::Failed);
        }
        let Ok(paths) = list_below(self.alloc, root, self.files.as_slice()) else {
            return Err(FilesFault::NoMemory);
        };
        let Ok(listed) = copied_text(self.alloc, root) else {
            return Err(FilesFault::NoMemory);
        };
        if self.roots.push(listed).is_err() {
            return Err(FilesFault::NoMemory);
        }
        Ok(paths)
    }

    fn read_whole(&mut self, path: &str, limit: usize) -> Result<FileRead, FilesFault>
        requires { ForSome (Some self.old.files) (λ files. IsSome (content_of files path.now)) }
        ensures bound { IfOk result (λ read. IsWithin limit read) }
        ensures told { IfOk result (λ read. ForSome (Some self.old.files) (λ files.
            IfSome (content_of files path.now) (λ bytes. read ≡ read_of limit bytes))) }
        ensures map { Some self.new.files ≡ Some self.old.files }
        ensures roots { Some self.new.roots.items ≡ Some self.old.roots.items }
        ensures cause { CountsFault self.old.calls.faults self.new.calls.faults result }
        ensures fails { IsErrOf result FilesFault.Failed ↔ Contains self.old.calls.failing.items self.old.calls.made }
        ensures made { self.new.calls.made ≡ min (self.old.calls.made + 1) (2 ^ 64 - 1) }
        ensures failing { self.new.calls.failing ≡ self.old.calls.failing }
    {
        if self.calls.begin().is_err() {
            return Err(FilesFault::Failed);
        }
        let Some(bytes) = find(self.files.as_slice(), path) else {
            unreachable!()
        };
        match read_up_to(self.alloc, bytes, limit) {
            Ok(read) => Ok(read),
            Err(_) => Err(FilesFault::NoMemory),
        }
    }

    fn append(&mut self, path: &str, bytes: &[u8]) -> Result<(), FilesFault>
        requires { 0 < length bytes.now }
        ensures map { FilesGrow result path.now bytes.now (Some self.old.files) (Some self.new.files) }
        ensures roots { Some self.new.roots.items ≡ Some self.old.roots.items }
        ensures cause { CountsFault self.old.calls.faults self.new.calls.faults result }
        ensures fails { IsErrOf result FilesFault.Failed ↔ Contains self.old.calls.failing.items self.old.calls.made }
        ensures made { self.new.calls.made ≡ min (self.old.calls.made + 1) (2 ^ 64 - 1) }
        ensures failing { self.new.calls.failing ≡ self.old.calls.failing }
    {
        if self.calls.begin().is_err() {
            return Err(FilesFault::Failed);
        }
        match self.files.append(self.alloc, path, bytes) {
            Ok(()) => Ok(()),
            Err(_) => Err(FilesFault::NoMemory),
        }
    }
}
