//! What no clause says: the happy paths, and that the forms in memory fail where they are told to.
ghost use Rattle.std.specs.Prelude.{◌≡◌, ◌<◌, length, IfOk};

use chan_values::{Bytes, FolderFault, NoMemory, Text};
use outside::calls::Calls;
use outside::faults::{Failed, FilesFault};
use outside::files::{FileBytes, FileRead, Files};
use outside::listing::{Listing, listing_of};
use outside::memory_files::MemoryFiles;
use outside::memory_streams::{MemorySink, MemorySource};
use outside::paths::{is_read, whole_path};
use outside::refusal::write_fault;
use outside::status::Status;
use outside::streams::{Sink, Source};
use std::alloc::{AllocError, Global};
use std::test::Fail;

fn calls_failing(alloc: Global, numbers: &[u64]) -> Result<Calls, AllocError> {
    Ok(Calls::new(Vec::from_slice(alloc, numbers)?))
}

fn text_of(alloc: Global, t: &str) -> Result<Text, NoMemory>
    ensures { IfOk result (λ text. text ≡ t.now) }
{
    let mut text = Text::new(alloc);
    text.push_str(t)?;
    Ok(text)
}

fn bytes_of(alloc: Global, piece: &[u8]) -> Result<Bytes, Fail> {
    let mut bytes = Bytes::new(alloc);
    bytes.push_slice(piece)?;
    Ok(bytes)
}

/// A file that holds its own path.
fn file_of(alloc: Global, path: &str) -> Result<FileBytes, NoMemory> {
    let mut file = FileBytes {
        path: Text::new(alloc),
        bytes: Bytes::new(alloc),
    };
    file.path.push_str(path)?;
    file.bytes.push_slice(path.as_bytes())?;
    Ok(file)
}

/// Adds a file that holds its own path, and answers whether it could be added.
fn add(files: &mut MemoryFiles, path: &str) -> bool {
    match file_of(files.alloc, path) {
        Ok(file) => {
            if files.may_push(file.path.as_str()) {
                files.push(file).is_ok()
            } else {
                false
            }
        }
        Err(_) => false,
    }
}

/// Whether the texts are these words, which are written with spaces between them.
fn are_words(texts: &[Text], words: &str) -> bool {
    let mut left = words.split_whitespace();
    for text in texts {
        if left.next() != Some(text.as_str()) {
            return false;
        }
    }
    left.next().is_none()
}

/// Whether these paths are listed below the root.
fn are_listed<F: Files>(files: &mut F, root: &str, paths: &str) -> bool {
    match files.list(root) {
        Ok(found) => are_words(found.as_slice(), paths),
        Err(_) => false,
    }
}

fn may_be_shared<T: Send + Sync>(_value: &T) {}

#[test]
fn only_the_files_of_a_channel_are_read(rt: HostRuntime) -> Result<(), Fail> {
    let rows = [
        ("manifest", true),
        ("Manifest", false),
        ("manifest/a.brs", false),
        ("source/a.brs", true),
        ("source/.brs", true),
        ("source/a.BRs", true),
        ("source/a.xml", false),
        ("source", false),
        ("source.brs", false),
        ("Source/a.brs", false),
        ("xsource/a.brs", false),
        ("components/a.xml", true),
        ("components/a.XML", true),
        ("components/a.brs", true),
        ("components/a.txt", false),
        ("source/2/3/4/5/6/7/8.brs", true),
        ("source/2/3/4/5/6/7/8/9.brs", false),
        ("é", false),
        ("", false),
    ];
    for (path, want) in rows {
        assert!(rt; is_read(path) == want, "{path}");
    }
    Ok(())
}

#[test]
fn what_lies_below_the_root_is_listed(rt: HostRuntime) -> Result<(), Fail> {
    let alloc = rt.alloc();
    let mut files = MemoryFiles::new(alloc, calls_failing(alloc, &[])?);
    for path in [
        "a/manifest",
        "a/notes.txt",
        "a/source/b.brs",
        "a/source/z.brs",
        "ab/manifest",
        "manifest",
    ] {
        assert!(rt; add(&mut files, path), "{path}");
    }
    assert!(rt; !files.may_push("a/manifest") && !files.may_push("manifest"));
    for (root, paths) in [
        ("a", "manifest source/b.brs source/z.brs"),
        ("ab", "manifest"),
        ("b", ""),
    ] {
        assert!(rt; are_listed(&mut files, root, paths), "{root}");
    }
    assert!(rt; files.roots.len() == 3 && files.calls.made == 3 && files.calls.faults == 0);
    Ok(())
}

/// Whether these words are a listing, and nothing where that isn't answered or the listing has other paths.
fn is_listing(alloc: Global, paths: &str) -> Option<bool> {
    let mut names = Vec::new(alloc);
    for path in paths.split_whitespace() {
        names.push(String::from_str(alloc, path).ok()?).ok()?;
    }
    match listing_of(alloc, names.as_slice()) {
        Ok(listing) => {
            if are_words(listing.as_slice(), paths) {
                Some(true)
            } else {
                None
            }
        }
        Err(FilesFault::Failed) => Some(false),
        Err(FilesFault::NoMemory) => None,
    }
}

#[test]
fn paths_in_order_are_a_listing(rt: HostRuntime) {
    for (paths, is) in [
        ("", true),
        ("manifest source/a.brs source/b.brs", true),
        ("manifest notes.txt", false),
        ("source/b.brs source/a.brs", false),
        ("manifest manifest", false),
    ] {
        assert!(rt; is_listing(rt.alloc(), paths) == Some(is), "{paths}");
    }
}

#[tactic(auto, using(outside::proofs::Listed::listed_is_readable))]
fn read_at_most<F: Files>(
    alloc: Global,
    files: &mut F,
    root: &str,
    limit: usize,
) -> Result<FileRead, FilesFault> {
    let paths = files.list(root)?;
    match paths.first() {
        Some(path) => match whole_path(alloc, root, path.as_str()) {
            Ok(whole) => files.read_whole(whole.as_str(), limit),
            Err(_) => Err(FilesFault::NoMemory),
        },
        None => Err(FilesFault::Failed),
    }
}

/// Whether these bytes were read as a whole file, and nothing where neither that nor a longer file was answered.
fn is_read_whole(read: Result<FileRead, FilesFault>, want: &[u8]) -> Option<bool> {
    match read {
        Ok(FileRead::Whole(bytes)) => {
            if bytes.as_slice() == want {
                Some(true)
            } else {
                None
            }
        }
        Ok(FileRead::Longer) => Some(false),
        Err(_) => None,
    }
}

#[test]
fn a_listed_file_is_read_up_to_the_limit(rt: HostRuntime) -> Result<(), Fail> {
    let alloc = rt.alloc();
    let mut files = MemoryFiles::new(alloc, calls_failing(alloc, &[])?);
    assert!(rt; add(&mut files, "a/manifest"));
    for (limit, whole) in [(0, false), (9, false), (10, true), (11, true)] {
        assert!(rt;
            is_read_whole(read_at_most(alloc, &mut files, "a", limit), b"a/manifest") == Some(whole)
        );
    }
    Ok(())
}

// Appends at each call in turn, and answers how many of the calls failed.
fn append_each<F: Files>(files: &mut F, pieces: &[(&str, &str)]) -> Result<u64, FilesFault> {
    let mut failed = 0;
    for (path, piece) in pieces {
        if piece.is_empty() {
            continue;
        }
        match files.append(path, piece.as_bytes()) {
            Ok(()) => {}
            Err(FilesFault::Failed) => failed += 1,
            Err(FilesFault::NoMemory) => return Err(FilesFault::NoMemory),
        }
    }
    Ok(failed)
}

/// Whether the files have these paths and bytes.
fn are_files(files: &[FileBytes], want: &[(&str, &str)]) -> bool {
    for (file, (path, bytes)) in files.iter().zip(want) {
        if file.path.as_str() != *path || file.bytes.as_slice() != bytes.as_bytes() {
            return false;
        }
    }
    files.len() == want.len()
}

/// Whether these files are there once these pieces were appended, where this call fails, and each call and failure was counted.
fn are_appended(
    alloc: Global,
    failing: u64,
    pieces: &[(&str, &str)],
    want: &[(&str, &str)],
) -> Option<bool> {
    let mut files = MemoryFiles::new(alloc, calls_failing(alloc, &[failing]).ok()?);
    let failed = append_each(&mut files, pieces).ok()?;
    let are_counted = files.calls.faults == failed && files.calls.made == pieces.len() as u64;
    Some(are_counted && are_files(files.files.as_slice(), want))
}

// the call that fails, the appended pieces, and the files
static APPENDED: [(u64, &[(&str, &str)], &[(&str, &str)]); 5] = [
    (
        9,
        &[("b", "one"), ("b", "two"), ("b", "three")],
        &[("b", "onetwothree")],
    ),
    (
        9,
        &[("b", "1"), ("a", "2"), ("c", "3"), ("a", "4"), ("ab", "5")],
        &[("a", "24"), ("ab", "5"), ("b", "1"), ("c", "3")],
    ),
    (1, &[("b", "1"), ("b", "2"), ("b", "3")], &[("b", "13")]),
    (
        1,
        &[("b", "1"), ("a", "2"), ("c", "3")],
        &[("b", "1"), ("c", "3")],
    ),
    (0, &[("b", "1")], &[]),
];

#[test]
fn what_is_appended_stands_at_the_end_of_its_file(rt: HostRuntime) {
    for (failing, pieces, want) in &APPENDED {
        assert!(rt;
            are_appended(rt.alloc(), *failing, pieces, want) == Some(true),
            "{pieces:?}"
        );
    }
}

/// Adds a file that holds its own path, and answers whether it could be added.
fn add_last(alloc: Global, listing: &mut Listing, path: &str) -> bool {
    match file_of(alloc, path) {
        Ok(file) => {
            if listing.may_push(file.path.as_str()) {
                listing.push(file).is_ok()
            } else {
                false
            }
        }
        Err(_) => false,
    }
}

#[test]
fn a_listing_keeps_its_files(rt: HostRuntime) {
    let alloc = rt.alloc();
    let mut listing = Listing::new(alloc);
    assert!(rt; listing.is_empty());
    assert!(rt; add_last(alloc, &mut listing, "a") && add_last(alloc, &mut listing, "b"));
    may_be_shared(&listing);
    assert!(rt; !listing.may_push("b") && listing.len() == 2 && listing.get(2).is_none());
    assert!(rt; matches!(listing.get(1), Some(file) if file.path.as_str() == "b"));
}

/// Whether this is what is written for a fault behind `> `.
fn is_refusal(
    alloc: Global,
    number: u8,
    path: &str,
    place: (u32, u32),
    name: &str,
    want: &str,
) -> Option<bool> {
    let fault = FolderFault {
        number,
        path: text_of(alloc, path).ok()?,
        line: place.0,
        column: place.1,
        name: text_of(alloc, name).ok()?,
    };
    let mut out = Vec::from_slice(alloc, b"> ").ok()?;
    write_fault(alloc, &fault, &mut out).ok()?;
    Some(out.as_slice() == want.as_bytes())
}

#[test]
fn a_refusal_says_what_is_given(rt: HostRuntime) {
    for (number, path, line, column, name, want) in [
        (3, "", 0, 0, "", "> refused F3"),
        (2, "source/a.brs", 0, 0, "", "> refused F2 source/a.brs"),
        (6, "source/a.brs", 9, 4, "", "> refused F6 source/a.brs:9:4"),
        (
            10,
            "components/a.xml",
            1,
            0,
            "",
            "> refused F10 components/a.xml:1 ",
        ),
        (
            5,
            "source/main.brs",
            2,
            5,
            "FloatLiteral",
            "> refused F5 source/main.brs:2:5 FloatLiteral",
        ),
        (
            9,
            "components/b.xml",
            1,
            0,
            "a",
            "> refused F9 components/b.xml:1 a",
        ),
        (18, "", 0, 4294967295, "x", "> refused F18:4294967295 x"),
        (255, "", 0, 0, "x", "> refused F255"),
    ] {
        let is = is_refusal(rt.alloc(), number, path, (line, column), name, want);
        assert!(rt; is == Some(true), "{want}");
    }
}

fn read_all<S: Source>(input: &mut S, bytes: &mut Bytes) -> bool {
    let mut piece = [0u8; 2];
    for _ in 0..u64::MAX {
        match input.read(&mut piece) {
            Ok(0) => return true,
            Ok(count) => {
                if bytes.push_slice(&piece[..count]).is_err() {
                    return false;
                }
            }
            Err(_) => return false,
        }
    }
    false
}

fn write_once<O: Sink>(out: &mut O, bytes: &[u8]) -> Result<usize, Failed>
    requires { 0 < length bytes.now }
{
    out.write(bytes)
}

#[test]
fn a_source_is_read_to_its_end(rt: HostRuntime) -> Result<(), Fail> {
    let alloc = rt.alloc();
    let mut input = MemorySource::new(bytes_of(alloc, b"hello")?, calls_failing(alloc, &[])?);
    let mut bytes = Bytes::new(alloc);
    assert!(rt; read_all(&mut input, &mut bytes));
    assert!(rt; bytes.as_slice() == b"hello".as_slice() && input.calls.made == 4);
    Ok(())
}

#[test]
fn a_sink_holds_what_is_written(rt: HostRuntime) -> Result<(), Fail> {
    let mut out = MemorySink::new(rt.alloc(), calls_failing(rt.alloc(), &[])?);
    assert!(rt; write_once(&mut out, b"he") == Ok(2) && write_once(&mut out, b"y") == Ok(1));
    assert!(rt; out.bytes.as_slice() == b"hey".as_slice());
    Ok(())
}

/// Whether the second and the third of four lists fail, and no other.
fn lists_fail<F: Files>(files: &mut F) -> bool {
    for fails in [false, true, true, false] {
        if files.list("a").is_err() != fails {
            return false;
        }
    }
    true
}

/// The same for reads.
fn reads_fail<S: Source>(input: &mut S) -> bool {
    let mut piece = [0u8; 1];
    for fails in [false, true, true, false] {
        if input.read(&mut piece).is_err() != fails {
            return false;
        }
    }
    true
}

/// The same for writes.
fn writes_fail<O: Sink>(out: &mut O) -> bool {
    for fails in [false, true, true, false] {
        if write_once(out, b"x").is_err() != fails {
            return false;
        }
    }
    true
}

/// The calls that were made, and those that failed.
fn counts(calls: &Calls) -> (u64, u64) {
    (calls.made, calls.faults)
}

#[test]
fn files_fail_at_the_calls_that_they_are_told(rt: HostRuntime) -> Result<(), Fail> {
    let mut files = MemoryFiles::new(rt.alloc(), calls_failing(rt.alloc(), &[1, 2])?);
    assert!(rt; lists_fail(&mut files));
    assert!(rt; counts(&files.calls) == (4, 2) && files.roots.len() == 2);
    Ok(())
}

#[test]
fn streams_fail_at_the_calls_that_they_are_told(rt: HostRuntime) -> Result<(), Fail> {
    let alloc = rt.alloc();
    let mut input = MemorySource::new(bytes_of(alloc, b"abcd")?, calls_failing(alloc, &[1, 2])?);
    assert!(rt; reads_fail(&mut input));
    assert!(rt; counts(&input.calls) == (4, 2) && input.given == 2);
    let mut out = MemorySink::new(alloc, calls_failing(alloc, &[1, 2])?);
    assert!(rt; writes_fail(&mut out));
    assert!(rt; counts(&out.calls) == (4, 2) && out.bytes.len() == 2);
    Ok(())
}

/// Whether a status has this number and this text.
fn is_status(alloc: Global, status: &Status, number: u8, want: &str) -> bool {
    match status.to_string(alloc) {
        Ok(text) => status.exit_code() == number && text.as_str() == want,
        Err(_) => false,
    }
}

#[test]
fn each_status_has_its_number_and_its_text(rt: HostRuntime) {
    let alloc = rt.alloc();
    let fault = FolderFault {
        number: 3,
        path: Text::new(alloc),
        line: 0,
        column: 0,
        name: Text::new(alloc),
    };
    assert!(rt; is_status(alloc, &Status::Refused(fault), 1, ""));
    for (status, number, text) in [
        (&Status::Done, 0, ""),
        (&Status::ChannelError, 2, ""),
        (&Status::BadScript(2), 3, "bad script line 2"),
        (&Status::ReadFault, 4, "read fault"),
        (&Status::WriteFault, 5, "write fault"),
        (&Status::DoorFault, 6, "door fault"),
        (&Status::BadWords, 7, "usage: check F | run F N"),
        (&Status::NoMemory, 8, "no memory"),
        (&Status::NotYet, 9, "not yet"),
    ] {
        assert!(rt; is_status(alloc, status, number, text), "{number}");
    }
}
