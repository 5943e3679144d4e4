//! What no clause says: folders within their bounds and past them, with ample memory, and the calls that are made where one fails.
use chan_values::{Bytes, Text};
use folder_files::{FolderAnswer, read_folder};
use outside::calls::Calls;
use outside::files::FileBytes;
use outside::listing::Listing;
use outside::memory_files::MemoryFiles;
use std::alloc::Global;
use std::test::Fail;

const LONGEST: usize = 1_048_576;

/// A file with so many bytes.
fn file_of(alloc: Global, path: &str, size: usize) -> Result<FileBytes, Fail> {
    let mut text = Text::new(alloc);
    text.push_str(path)?;
    let mut bytes = Bytes::new(alloc);
    let piece = [b'a'; 64];
    for _ in 0..size / 64 {
        bytes.push_slice(&piece)?;
    }
    bytes.push_slice(&piece[..size % 64])?;
    Ok(FileBytes { path: text, bytes })
}

/// Adds a file, and answers whether it could be added.
fn add(files: &mut MemoryFiles, file: FileBytes) -> bool {
    files.may_push(file.path.as_str()) && files.push(file).is_ok()
}

/// Files of these sizes, below `r/source`.
fn sized(alloc: Global, sizes: &[usize], calls: Calls) -> Result<MemoryFiles, Fail> {
    let mut files = MemoryFiles::new(alloc, calls);
    let mut number = 10_000u64;
    for size in sizes {
        let path = format!(in alloc; "r/source/f{number}.brs")?;
        let _ = add(&mut files, file_of(alloc, path.as_str(), *size)?);
        number = number.saturating_add(1);
    }
    Ok(files)
}

fn many(alloc: Global, count: usize) -> Result<MemoryFiles, Fail> {
    let mut sizes: Vec<usize> = Vec::new(alloc);
    for _ in 0..count {
        sizes.push(0)?;
    }
    sized(alloc, sizes.as_slice(), Calls::new(Vec::new(alloc)))
}

fn bytes_in(listing: &Listing) -> usize {
    let mut count = 0usize;
    for file in listing.as_slice() {
        count = count.saturating_add(file.bytes.len());
    }
    count
}

/// What reading the folder `r` answers: how many files with how many bytes, or why there are none.
fn answer(alloc: Global, files: &mut MemoryFiles) -> Result<String, Fail> {
    let text = match read_folder(alloc, files, "r") {
        Ok(listing) => format!(in alloc; "{} files {} bytes", listing.len(), bytes_in(&listing))?,
        Err(FolderAnswer::Fault(fault)) => {
            format!(in alloc; "F{} {}", fault.number, fault.path.as_str())?
        }
        Err(FolderAnswer::ReadFault) => String::from_str(alloc, "read fault")?,
        Err(FolderAnswer::NoMemory) => String::from_str(alloc, "no memory")?,
    };
    Ok(text)
}

#[test]
fn a_folder_is_read_within_its_bounds(rt: HostRuntime) -> Result<(), Fail> {
    let alloc = rt.alloc();
    let long = LONGEST;
    let full = [long; 16];
    let over = [
        long, long, long, long, long, long, long, long, long, long, long, long, long, long, long,
        long, 1,
    ];
    let one_long = [
        long + 1,
        long,
        long,
        long,
        long,
        long,
        long,
        long,
        long,
        long,
        long,
        long,
        long,
        long,
        long,
    ];
    let last_long = [
        long,
        long,
        long,
        long,
        long,
        long,
        long,
        long,
        long,
        long,
        long,
        long,
        long,
        long,
        long,
        long + 1,
    ];
    let rows: [(&[usize], &str); 9] = [
        (&[], "0 files 0 bytes"),
        (&[3, 0, 70], "3 files 73 bytes"),
        (&[long], "1 files 1048576 bytes"),
        (&[long + 1], "F2 source/f10000.brs"),
        (&[1, 2 * long, 5, 3 * long], "F2 source/f10001.brs"),
        (&full, "16 files 16777216 bytes"),
        (&over, "F1 "),
        (&one_long, "F2 source/f10000.brs"),
        (&last_long, "F1 "),
    ];
    for (sizes, want) in rows {
        let mut files = sized(alloc, sizes, Calls::new(Vec::new(alloc)))?;
        assert_eq!(rt; answer(alloc, &mut files)?.as_str(), want);
    }
    Ok(())
}

#[test]
fn a_folder_has_at_most_4096_files(rt: HostRuntime) -> Result<(), Fail> {
    let alloc = rt.alloc();
    for (count, want) in [(4096, "4096 files 0 bytes"), (4097, "F1 ")] {
        let mut files = many(alloc, count)?;
        assert_eq!(rt; answer(alloc, &mut files)?.as_str(), want);
    }
    Ok(())
}

#[test]
fn files_are_read_below_the_root_and_keep_their_bytes(rt: HostRuntime) -> Result<(), Fail> {
    let alloc = rt.alloc();
    let mut files = MemoryFiles::new(alloc, Calls::new(Vec::new(alloc)));
    for (path, size) in [
        ("q/manifest", 1),
        ("r/components/a.XML", 2),
        ("r/components/a.txt", 3),
        ("r/manifest", 4),
        ("r/source/b.brs", 5),
        ("r/source/b.xml", 6),
        ("s/manifest", 7),
    ] {
        assert!(rt; add(&mut files, file_of(alloc, path, size)?));
    }
    let mut found = String::new(alloc);
    if let Ok(listing) = read_folder(alloc, &mut files, "r") {
        for file in listing.as_slice() {
            found.push_str(file.path.as_str())?;
            found.push_str(format!(in alloc; " {};", file.bytes.len())?.as_str())?;
        }
    }
    assert_eq!(rt;
        found.as_str(),
        "components/a.XML 2;manifest 4;source/b.brs 5;"
    );
    assert_eq!(rt; files.calls.made, 4);
    Ok(())
}

#[test]
fn after_a_call_that_fails_no_further_one_is_made(rt: HostRuntime) -> Result<(), Fail> {
    let alloc = rt.alloc();
    for failing in [0, 1, 2, 3] {
        let mut numbers = Vec::new(alloc);
        numbers.push(failing)?;
        let mut files = sized(alloc, &[LONGEST + 1, 2, 3], Calls::new(numbers))?;
        assert_eq!(rt; answer(alloc, &mut files)?.as_str(), "read fault");
        assert_eq!(rt; files.calls.made, failing + 1);
        assert_eq!(rt; files.calls.faults, 1);
    }
    Ok(())
}
