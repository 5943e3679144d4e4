//! The adapters over real files and over readers and writers of std.
ghost use Rattle.std.specs.Prelude.{◌<◌, length};

use crate::host_files::HostFiles;
use crate::host_streams::{StandardInput, StandardOutput};
use crate::message::write_message;
use chan_values::Text;
use outside::faults::{Failed, FilesFault};
use outside::files::{FileRead, Files as OutsideFiles};
use outside::paths::whole_path;
use outside::status::Status;
use outside::streams::{Sink, Source};
use std::alloc::Global;
use std::os::unix::fs::symlink;
use std::rt::Files;
use std::test::Fail;
use std::{fs, io};

const FOLDERS: [&str; 5] = [
    "files_test/source/sub.brs",
    "files_test/source/2/3/4/5/6/7/8",
    "files_test/components",
    "files_test/other",
    "files_test/empty",
];

const FILES: [&str; 10] = [
    "files_test/manifest",
    "files_test/notes.brs",
    "files_test/other/b.brs",
    "files_test/source/sub.brs/b.brs",
    "files_test/source/sub.brs.brs",
    "files_test/source/Z.BRS",
    "files_test/source/notes.txt",
    "files_test/source/2/3/4/5/6/7/8.brs",
    "files_test/source/2/3/4/5/6/7/8/9.brs",
    "files_test/components/c.xml",
];

// Makes the folder, in which each file holds its own path. Where a test broke off in this place, its files go first.
fn make_files<R: Files + AllocGlobal>(rt: &R) -> io::Result<()> {
    let _ = fs::remove_dir_all(rt, "files_test");
    for folder in FOLDERS {
        fs::create_dir_all(rt, folder)?;
    }
    for file in FILES {
        fs::write(rt, file, file)?;
    }
    symlink(rt, "Z.BRS", "files_test/source/link.brs")?;
    symlink(rt, "../source", "files_test/components/source")
}

const LISTED: [&str; 6] = [
    "components/c.xml",
    "manifest",
    "source/2/3/4/5/6/7/8.brs",
    "source/Z.BRS",
    "source/sub.brs.brs",
    "source/sub.brs/b.brs",
];

/// Whether exactly these paths are listed.
fn are_listed<F: OutsideFiles>(files: &mut F, root: &str, want: &[&str]) -> bool {
    match files.list(root) {
        Ok(paths) => are_texts(paths.as_slice(), want),
        Err(_) => false,
    }
}

fn are_texts(texts: &[Text], want: &[&str]) -> bool {
    for (text, want) in texts.iter().zip(want) {
        if text.as_str() != *want {
            return false;
        }
    }
    texts.len() == want.len()
}

fn fails_to_list<F: OutsideFiles>(files: &mut F, root: &str) -> bool {
    matches!(files.list(root), Err(FilesFault::Failed))
}

/// Whether a file of the folder, which holds its own path, is read whole where the limit is its length, and not where it is less.
fn is_read_up_to_the_limit<R: Files + AllocGlobal + Clone + Drop>(
    alloc: Global,
    files: &mut HostFiles<R>,
    path: &str,
) -> Option<bool> {
    let whole = whole_path(alloc, "files_test", path).ok()?;
    let path = whole.as_str();
    let is_whole = match files.read_whole(path, path.len()).ok()? {
        FileRead::Whole(bytes) => bytes.as_slice() == path.as_bytes(),
        FileRead::Longer => false,
    };
    let less = path.len().saturating_sub(1);
    Some(is_whole && matches!(files.read_whole(path, less), Ok(FileRead::Longer)))
}

#[test]
fn only_the_files_of_a_channel_are_listed_and_read(rt: HostRuntime) -> Result<(), Fail> {
    let alloc = rt.alloc();
    make_files(&rt)?;
    let mut files = HostFiles::new(rt, alloc);
    for path in LISTED {
        assert!(rt;
            is_read_up_to_the_limit(alloc, &mut files, path) == Some(true),
            "{path}"
        );
    }
    assert!(rt;
        are_listed(&mut files, "files_test", &LISTED)
            && are_listed(&mut files, "files_test/empty", &[])
    );
    for root in ["files_test/none", "files_test/manifest"] {
        assert!(rt; fails_to_list(&mut files, root), "{root}");
    }
    fs::remove_dir_all(&rt, "files_test")?;
    Ok(())
}

/// Whether a file holds these bytes.
fn holds<R: Files + AllocGlobal>(rt: &R, path: &str, want: &[u8]) -> bool {
    match fs::read(rt, path) {
        Ok(bytes) => bytes.as_slice() == want,
        Err(_) => false,
    }
}

fn append_once<F: OutsideFiles>(files: &mut F, path: &str, bytes: &[u8]) -> Result<(), FilesFault>
    requires { 0 < length bytes.now }
{
    files.append(path, bytes)
}

#[test]
fn what_is_appended_stands_at_the_end_of_a_file(rt: HostRuntime) -> Result<(), Fail> {
    let _ = fs::remove_dir_all(&rt, "append_test");
    fs::create_dir_all(&rt, "append_test")?;
    let mut files = HostFiles::new(rt, rt.alloc());
    append_once(&mut files, "append_test/record", b"turn 0 1\n")?;
    append_once(&mut files, "append_test/record", b"round 1000\n")?;
    assert!(rt; holds(&rt, "append_test/record", b"turn 0 1\nround 1000\n"));
    for path in ["append_test", "append_test/none/record"] {
        assert!(rt;
            append_once(&mut files, path, b"x") == Err(FilesFault::Failed),
            "{path}"
        );
    }
    fs::remove_dir_all(&rt, "append_test")?;
    Ok(())
}

fn read_once<S: Source>(input: &mut S, into: &mut [u8]) -> Result<usize, Failed>
    requires { 0 < length into.old }
{
    input.read(into)
}

#[test]
fn an_input_is_read_to_its_end(rt: HostRuntime) -> Result<(), Fail> {
    fs::create_dir_all(&rt, "input_test")?;
    fs::write(&rt, "input_test/in", "abc")?;
    let mut input = StandardInput::new(fs::open(&rt, "input_test/in")?);
    let mut piece = [0u8; 2];
    assert!(rt; read_once(&mut input, &mut piece) == Ok(2) && piece == *b"ab");
    assert!(rt; read_once(&mut input, &mut piece) == Ok(1) && piece[0] == b'c');
    assert!(rt; read_once(&mut input, &mut piece) == Ok(0));
    let mut folder = StandardInput::new(fs::open(&rt, "input_test")?);
    assert!(rt; read_once(&mut folder, &mut piece).is_err());
    fs::remove_dir_all(&rt, "input_test")?;
    Ok(())
}

fn write_once<O: Sink>(out: &mut O, bytes: &[u8]) -> Result<usize, Failed>
    requires { 0 < length bytes.now }
{
    out.write(bytes)
}

#[test]
fn what_is_written_stands_in_the_file(rt: HostRuntime) -> Result<(), Fail> {
    fs::create_dir_all(&rt, "output_test")?;
    let mut out = StandardOutput::new(fs::create(&rt, "output_test/out")?);
    assert!(rt; write_once(&mut out, b"ab") == Ok(2) && write_once(&mut out, b"c") == Ok(1));
    assert!(rt; holds(&rt, "output_test/out", b"abc"));
    let mut closed = StandardOutput::new(fs::open(&rt, "output_test/out")?);
    assert!(rt; write_once(&mut closed, b"d").is_err());
    fs::remove_dir_all(&rt, "output_test")?;
    Ok(())
}

/// Whether what is told of a status is this.
fn is_told<R: Files + AllocGlobal>(rt: &R, status: &Status, want: &str) -> io::Result<bool> {
    let mut err = fs::create(rt, "message_test/err")?;
    write_message(&mut err, status)?;
    Ok(holds(rt, "message_test/err", want.as_bytes()))
}

#[test]
fn a_status_is_told_in_one_line(rt: HostRuntime) -> Result<(), Fail> {
    let rows = [
        (Status::Done, ""),
        (Status::ChannelError, ""),
        (Status::BadScript(2), "brsrun: bad script line 2\n"),
        (Status::ReadFault, "brsrun: read fault\n"),
        (Status::WriteFault, "brsrun: write fault\n"),
        (Status::DoorFault, "brsrun: door fault\n"),
        (Status::BadWords, "brsrun: usage: check F | run F N\n"),
        (Status::NoMemory, "brsrun: no memory\n"),
        (Status::NotYet, "brsrun: not yet\n"),
    ];
    fs::create_dir_all(&rt, "message_test")?;
    for (status, want) in &rows {
        assert!(rt; is_told(&rt, status, want)?, "{want}");
    }
    fs::remove_dir_all(&rt, "message_test")?;
    Ok(())
}
