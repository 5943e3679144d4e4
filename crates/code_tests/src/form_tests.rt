//! What no clause says: the happy paths.
use brs_forms::{folded_bytes, key_text, readable_text, text_of};
use std::test::Fail;

#[test]
fn words_are_read(rt: HostRuntime) -> Result<(), Fail> {
    let alloc = rt.alloc();
    assert_eq!(rt;
        folded_bytes(alloc, b"Key9")?.as_slice(),
        b"key9".as_slice()
    );
    assert_eq!(rt; readable_text(alloc, b"Key")?.as_str(), "Key");
    assert_eq!(rt; readable_text(alloc, b"\xff")?.as_str(), "");
    assert_eq!(rt; text_of(alloc, b"\"a\"\"B\"")?.as_str(), "a\"B");
    assert_eq!(rt; key_text(alloc, b"\"aB\"")?.as_str(), "ab");
    Ok(())
}
