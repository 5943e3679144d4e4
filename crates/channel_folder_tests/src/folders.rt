//! Small folders, and what their check answers.
use chan_values::{Bytes, FolderFault, Text};
use channel_folder::{CheckAnswer, Gate, NoGate, check_folder};
use folder_files::{FolderAnswer, read_folder};
use outside::calls::Calls;
use outside::files::FileBytes;
use outside::memory_files::MemoryFiles;
use outside::refusal::write_fault;
use std::alloc::Global;
use std::sync::atomic::{AtomicU64, Ordering};
use std::test::Fail;
use std::thread::Threads;

/// A file: its path below the folder, and its text.
pub(crate) type Row = (&'static str, &'static str);

/// The file of a row, below the folder `r`.
fn file_of(alloc: Global, row: &Row) -> Result<FileBytes, Fail> {
    let mut path = Text::new(alloc);
    path.push_str("r/")?;
    path.push_str(row.0)?;
    let mut bytes = Bytes::new(alloc);
    bytes.push_slice(row.1.as_bytes())?;
    Ok(FileBytes { path, bytes })
}

/// Adds a file, and answers whether it could be added.
fn add(files: &mut MemoryFiles, file: FileBytes) -> bool {
    files.may_push(file.path.as_str()) && files.push(file).is_ok()
}

/// The files of rows, `None` where they don't stand in order of path.
fn files_of(alloc: Global, rows: &[Row]) -> Result<Option<MemoryFiles>, Fail> {
    let mut files = MemoryFiles::new(alloc, Calls::new(Vec::new(alloc)));
    for row in rows {
        if !add(&mut files, file_of(alloc, row)?) {
            return Ok(None);
        }
    }
    Ok(Some(files))
}

fn refusal(alloc: Global, fault: &FolderFault) -> Result<String, Fail> {
    let mut bytes = Vec::new(alloc);
    write_fault(alloc, fault, &mut bytes)?;
    match String::from_utf8(bytes) {
        Ok(text) => Ok(text),
        Err(_) => Ok(String::from_str(alloc, "no text")?),
    }
}

fn answer_of<R: Threads, G: Gate>(
    rt: &R,
    alloc: Global,
    mut files: MemoryFiles,
    gate: &G,
) -> Result<String, Fail> {
    match read_folder(alloc, &mut files, "r") {
        Ok(listing) => match check_folder(rt, alloc, &listing, gate) {
            Ok(_) => Ok(String::from_str(alloc, "good")?),
            Err(CheckAnswer::Fault(fault)) => refusal(alloc, &fault),
            Err(CheckAnswer::NoMemory) => Ok(String::from_str(alloc, "no memory")?),
        },
        Err(FolderAnswer::Fault(fault)) => refusal(alloc, &fault),
        Err(_) => Ok(String::from_str(alloc, "not read")?),
    }
}

fn answer_behind<R: Threads, G: Gate>(
    rt: &R,
    alloc: Global,
    rows: &[Row],
    gate: &G,
) -> Result<String, Fail> {
    match files_of(alloc, rows)? {
        Some(files) => answer_of(rt, alloc, files, gate),
        None => Ok(String::from_str(alloc, "out of order")?),
    }
}

/// What the check of a folder of these files says: `good`, or the refusal.
fn answer<R: Threads>(rt: &R, alloc: Global, rows: &[Row]) -> Result<String, Fail> {
    answer_behind(rt, alloc, rows, &NoGate)
}

/// Whether the check of a folder of these files says this.
pub(crate) fn is_answered<R: Threads>(
    rt: &R,
    alloc: Global,
    rows: &[Row],
    want: &str,
) -> Result<bool, Fail> {
    let found = answer(rt, alloc, rows)?;
    Ok(found.as_str() == want)
}

/// A gate that counts how often each half enters it.
#[derive(Drop)]
struct CountingGate {
    first: AtomicU64,
    second: AtomicU64,
}

impl Gate for CountingGate {
    fn enter(&self, half: u8) {
        let count = if half == 0 { &self.first } else { &self.second };
        let _ = count.fetch_add(1, Ordering::SeqCst);
    }
}

/// How often each half of these files enters the gate.
pub(crate) fn entries<R: Threads>(rt: &R, alloc: Global, rows: &[Row]) -> Result<(u64, u64), Fail> {
    let gate = CountingGate {
        first: AtomicU64::new(0),
        second: AtomicU64::new(0),
    };
    let _ = answer_behind(rt, alloc, rows, &gate)?;
    Ok((
        gate.first.load(Ordering::SeqCst),
        gate.second.load(Ordering::SeqCst),
    ))
}
