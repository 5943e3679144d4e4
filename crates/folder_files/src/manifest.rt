//! The faults of a channel's manifest.
ghost use Rattle.std.specs.Prelude.{◌≡◌, ◌==◌, ◌≤◌, [], not, length, codes, None, IfOk};
ghost use Rattle.std.specs.List.{list_any, position_from};
ghost use Rattle.std.specs.Option.{option_copied};
ghost use Rattle.outside.specs.Folder.{content_of};
ghost use Rattle.folder_files.specs.Manifest as spec;
ghost use Rattle.folder_files.specs.SizeFaults.{fault_of, first_size_fault};

use chan_values::{Bytes, FolderFault, NoMemory, Text};
use outside::files::FileBytes;
use std::alloc::Global;

fn is_space(b: u8) -> bool
    ensures { result ≡ spec.is_space b }
{
    b == b' ' || b == b'\t' || b == b'\r'
}

fn has_equals(bytes: &[u8]) -> bool
    ensures { result ≡ list_any (λ c. c == 61) bytes.now }
{
    bytes.iter().any(|b| *b == b'=')
}

/// Spaces at the end don't matter: none of them is a `=`.
fn is_good_line(line: &[u8]) -> bool
    ensures { result ≡ spec.is_good_line line.now }
{
    let mut rest = line;
    while let [first, more @ ..] = rest {
        if !is_space(*first) {
            return *first == b'#' || has_equals(more);
        }
        rest = more;
    }
    true
}

/// Whether each line of a manifest is empty, a comment or a pair of a key and a value. The bytes need not be UTF-8. Takes no memory.
///
/// Source: Roku developer documentation, "Channel manifest": a line is `key=value`, and comments begin with `#`.
pub fn is_good_manifest(bytes: &[u8]) -> bool
    ensures { result ≡ spec.is_good_manifest bytes.now }
{
    bytes.split(|b| *b == b'\n').all(|line| is_good_line(line))
}

/// How many lines stand before the first bad one, where there is a bad one.
fn lines_before_a_bad_one(bytes: &[u8]) -> Option<usize>
    ensures { result ≡ position_from (λ line. not (spec.is_good_line line)) 0 (spec.lines_of bytes.now) }
{
    bytes
        .split(|b| *b == b'\n')
        .position(|line| !is_good_line(line))
}

/// The number of the first bad line, counted from 1.
fn first_bad_line(bytes: &[u8]) -> Option<u32>
    requires { length bytes.now ≤ 1048576 }
    ensures { result ≡ position_from (λ line. not (spec.is_good_line line)) 1 (spec.lines_of bytes.now) }
{
    match lines_before_a_bad_one(bytes) {
        Some(count) => Some(count as u32 + 1),
        None => None,
    }
}

#[tactic(auto, using(outside::proofs::Below::content_of_step))]
fn manifest_in(files: &[FileBytes]) -> Option<&Bytes>
    ensures { option_copied result ≡ content_of files.now (codes "manifest") }
{
    for file in files {
        if file.path.as_str() == "manifest" {
            return Some(&file.bytes);
        }
    }
    None
}

fn line_fault(alloc: Global, line: u32) -> Result<FolderFault, NoMemory>
    ensures { IfOk result (λ fault. fault ≡ spec.line_fault line) }
{
    let mut path = Text::new(alloc);
    path.push_str("manifest")?;
    Ok(FolderFault {
        number: 4,
        path,
        line,
        column: 0,
        name: Text::new(alloc),
    })
}

/// The fault of a folder without a manifest. Takes no memory.
fn no_manifest(alloc: Global) -> FolderFault
    ensures { result ≡ fault_of 3 [] }
{
    FolderFault {
        number: 3,
        path: Text::new(alloc),
        line: 0,
        column: 0,
        name: Text::new(alloc),
    }
}

/// The first fault of the manifest of these files, `None` exactly where it has none: there is no manifest; or, with its number, the first of its
/// lines that is bad. A line, without the spaces, tabs and CR at its ends, is empty, begins with `#`, or has a `=` after its first byte. The bytes need
/// not be UTF-8.
///
/// Source: Roku developer documentation, "Channel manifest": a line is `key=value`, and comments begin with `#`.
pub fn first_manifest_fault(
    alloc: Global,
    files: &[FileBytes],
) -> Result<Option<FolderFault>, NoMemory>
    requires { first_size_fault files.now ≡ None }
    ensures { IfOk result (λ found. found ≡ spec.first_manifest_fault files.now) }
{
    match manifest_in(files) {
        Some(bytes) => match first_bad_line(bytes.as_slice()) {
            Some(line) => Ok(Some(line_fault(alloc, line)?)),
            None => Ok(None),
        },
        None => Ok(Some(no_manifest(alloc))),
    }
}
