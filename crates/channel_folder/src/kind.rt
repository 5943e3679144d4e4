//! The kinds of files in a folder.
ghost use Rattle.std.specs.Prelude.{◌≡◌, map};
ghost use Rattle.std.specs.Char.{to_ascii_lowercase};
ghost use Rattle.outside.specs.Folder.{ends_in};
ghost use Rattle.channel_folder.specs.FileFaults.{kind_of};

/// How a file is read.
#[derive(Clone, Copy, Debug, PartialEq, Eq)]
pub enum FileKind {
    /// As a source file: its path ends in `.brs`.
    Source,
    /// As a component file: its path ends in `.xml`.
    Component,
    /// Neither, as the manifest.
    Other,
}

#[tactic(auto, using(outside::proofs::Endings::too_short))]
fn ends_in(path: &[u8], ending: &[u8]) -> bool
    requires { map to_ascii_lowercase ending.now ≡ ending.now }
    ensures { result ≡ ends_in ending.now path.now }
{
    match path.len().checked_sub(ending.len()) {
        Some(start) => path[start..].eq_ignore_ascii_case(ending),
        None => false,
    }
}

/// The kind of the file with this path. The endings stand in any case.
pub(crate) fn kind_of(path: &str) -> FileKind
    ensures { result ≡ kind_of path.now }
{
    let bytes = path.as_bytes();
    if ends_in(bytes, b".brs") {
        FileKind::Source
    } else if ends_in(bytes, b".xml") {
        FileKind::Component
    } else {
        FileKind::Other
    }
}
