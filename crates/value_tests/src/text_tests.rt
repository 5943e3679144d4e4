//! What no clause says: the happy paths, and that the types cross threads.
use chan_values::{Bytes, FolderFault, NoMemory, Text, fold_name};
use std::alloc::Global;
use std::test::Fail;
use std::thread::join;

fn may_be_shared<T: Send + Sync>(_value: &T) {}

fn text_of(alloc: Global, t: &str) -> Result<Text, NoMemory> {
    let mut text = Text::new(alloc);
    text.push_str(t)?;
    Ok(text)
}

fn bytes_of(alloc: Global, piece: &[u8]) -> Result<Bytes, NoMemory> {
    let mut bytes = Bytes::new(alloc);
    bytes.push_slice(piece)?;
    Ok(bytes)
}

#[test]
fn texts_and_bytes_are_made_and_given_back(rt: HostRuntime) -> Result<(), Fail> {
    let text = text_of(rt.alloc(), "hé")?;
    assert_eq!(rt; text.len(), 3);
    assert!(rt; !text.is_empty());
    let text = Text::from_string(text.into_string());
    assert_eq!(rt; text.as_str(), "hé");
    let mut bytes = bytes_of(rt.alloc(), text.as_str().as_bytes())?;
    bytes.push(10)?;
    assert_eq!(rt; bytes.len(), 4);
    assert!(rt; !bytes.is_empty());
    let bytes = Bytes::from_vec(bytes.into_vec());
    assert_eq!(rt; bytes.as_slice(), [104, 195, 169, 10].as_slice());
    assert_eq!(rt; bytes.get(3), Some(10));
    assert_eq!(rt; bytes.get(4), None);
    Ok(())
}

#[test]
fn only_ascii_capital_letters_are_folded(rt: HostRuntime) -> Result<(), Fail> {
    for (name, want) in [
        ("AZ_az09", "az_az09"),
        ("@[`{", "@[`{"),
        ("ÉÀ", "ÉÀ"),
        ("", ""),
    ] {
        assert_eq!(rt; fold_name(rt.alloc(), name.as_bytes())?.as_str(), want);
    }
    Ok(())
}

#[test]
fn plain_values_cross_threads(rt: HostRuntime) -> Result<(), Fail> {
    let alloc = rt.alloc();
    let text = text_of(alloc, "ab")?;
    let bytes = bytes_of(alloc, &[1])?;
    may_be_shared(&text);
    may_be_shared(&bytes);
    let (fault, copied) = join(
        &rt,
        || -> Result<FolderFault, NoMemory> {
            Ok(FolderFault {
                number: 6,
                path: text_of(alloc, text.as_str())?,
                line: 9,
                column: 4,
                name: Text::new(alloc),
            })
        },
        || bytes_of(alloc, bytes.as_slice()),
    );
    let fault = fault?;
    may_be_shared(&fault);
    assert_eq!(rt; fault.path.as_str(), "ab");
    assert_eq!(rt; copied?.len(), 1);
    Ok(())
}
