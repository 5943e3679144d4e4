//! Files, which are listed below a root, read and appended to.

use crate::faults::FilesFault;
use chan_values::{Bytes, Text};

/// A file: its whole path, and what it holds.
#[derive(Debug, Drop)]
pub struct FileBytes {
    /// The whole path.
    pub path: Text,
    /// What the file holds.
    pub bytes: Bytes,
}

/// What a file holds, up to a limit.
#[derive(Debug, Drop)]
pub enum FileRead {
    /// All bytes of the file.
    Whole(Bytes),
    /// The file has more bytes than the limit.
    Longer,
}

/// Files by their whole paths.
pub trait Files {
    ghost use Rattle.std.specs.Prelude.{◌≡◌, ◌<◌, ℕ, List, [], ◌∷◌, length, Option, IfOk, IfSome, OnOk, OnErr, IsSome};
    ghost use Rattle.std.specs.Option.{ForSome};
    ghost use Rattle.outside.specs.Causes.{CountsFault};
    ghost use Rattle.outside.specs.declared.files.FileBytes.{FileBytes};
    ghost use Rattle.outside.specs.Folder.{IsListing, paths_below, content_of, read_of, IsWithin, Grows, IsMap, FilesGrow};

    /// The map of whole paths to bytes, where it is told: the files, ascending by their paths.
    ghost map: { Self → Option (List FileBytes) };

    /// The roots for which `list` answered `Ok`, in order, where they are told.
    ghost roots: { Self → Option (List (List ℕ)) };

    /// How often a call has failed, at most 2^64 - 1.
    ghost faults: { Self → ℕ };

    /// The paths below a root that a channel is read from, relative to the root and ascending by their bytes: those of at most
    /// eight parts that are `manifest`, or lie below `source` and end in `.brs`, or lie below `components` and end in `.brs`
    /// or `.xml`. The whole path of each is the root, `/` and the path. For the host's files a root that is no folder is
    /// `Failed`, and so is a name that is not UTF-8.
    ///
    /// The places of the files follow Roku's developer documentation (BrightScript Language Reference, SceneGraph XML); that
    /// eight parts are the most is a rule of this project.
    fn list(&mut self, root: &str) -> Result<Vec<Text>, FilesFault>
        ensures listing { IfOk result (λ paths. IsListing paths.items) }
        ensures told { IfOk result (λ paths. ForSome (map self.old) (λ files. paths.items ≡ paths_below root.now files)) }
        ensures map { map self.new ≡ map self.old }
        ensures roots { OnOk result (Grows (roots self.old) (roots self.new) (root.now ∷ [])) }
        ensures err { OnErr result (roots self.new ≡ roots self.old) }
        ensures cause { CountsFault (faults self.old) (faults self.new) result };

    /// What the file with this whole path holds, or `Longer` exactly where that is more than `limit` bytes.
    fn read_whole(&mut self, path: &str, limit: usize) -> Result<FileRead, FilesFault>
        requires { ForSome (map self.old) (λ files. IsSome (content_of files path.now)) }
        ensures bound { IfOk result (λ read. IsWithin limit read) }
        ensures told { IfOk result (λ read. ForSome (map self.old) (λ files.
            IfSome (content_of files path.now) (λ bytes. read ≡ read_of limit bytes))) }
        ensures map { map self.new ≡ map self.old }
        ensures roots { roots self.new ≡ roots self.old }
        ensures cause { CountsFault (faults self.old) (faults self.new) result };

    /// Adds bytes at the end of the file with this whole path, which is made where it is missing. After an `Err` the files hold
    /// what they held; of the host's files this is not promised where a write broke off in the middle.
    fn append(&mut self, path: &str, bytes: &[u8]) -> Result<(), FilesFault>
        requires { 0 < length bytes.now }
        ensures map { FilesGrow result path.now bytes.now (map self.old) (map self.new) }
        ensures roots { roots self.new ≡ roots self.old }
        ensures cause { CountsFault (faults self.old) (faults self.new) result };

    /// No path stands twice.
    ghost distinct: { (f : Self) → ForSome (map f) IsMap };
}
