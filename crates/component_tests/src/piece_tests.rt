//! What no clause says: with ample memory each kind of piece is read.
use std::alloc::Global;
use std::test::Fail;
use xml_pieces::{Cursor, Piece, ReadError};

/// One letter for each piece of a text, and `!` where no piece stands.
fn kinds(alloc: Global, text: &[u8]) -> Result<String, Fail> {
    let mut kinds = String::new(alloc);
    let mut rest = Cursor::new(text);
    for _turn in 0..text.len() {
        if rest.is_empty() {
            return Ok(kinds);
        }
        match rest.piece(alloc) {
            Ok(Piece::Declaration) => kinds.push('X')?,
            Ok(Piece::Comment) => kinds.push('C')?,
            Ok(Piece::Data(_)) => kinds.push('D')?,
            Ok(Piece::Start(_)) => kinds.push('S')?,
            Ok(Piece::Empty(_)) => kinds.push('E')?,
            Ok(Piece::End(_)) => kinds.push('N')?,
            Ok(Piece::Blank) => kinds.push('b')?,
            Ok(Piece::Stray) => kinds.push('t')?,
            Err(ReadError::Fault) => {
                kinds.push('!')?;
                return Ok(kinds);
            }
            Err(ReadError::NoMemory) => return Err("no memory")?,
        }
    }
    Ok(kinds)
}

#[test]
fn texts_are_cut_into_pieces(rt: HostRuntime) -> Result<(), Fail> {
    for (text, want) in [
        ("", ""),
        ("<?xml?><?xml-x > ?> <a>", "XXbS"),
        ("<? xml?>", "!"),
        ("<!---->b<!-- -- ->-->", "CtC"),
        ("<!-->", "!"),
        ("<!DOCTYPE a>", "!"),
        ("<![CDATA[]]]]><![CDATA[<a>]]>", "DD"),
        ("<![CDATA[ ]] >", "!"),
        ("<a/><a ></a\r\n>", "ESN"),
        ("<a b='>' c\t=\n\"'\"/>", "E"),
        ("<a b='1'c='2'>", "!"),
        ("<a b='1' b='2'>", "!"),
        ("<a b='1' B='2'>", "S"),
        ("<a:b>", "!"),
        ("<a b:c=''>", "S"),
        ("<a b='<'>", "!"),
        ("< a>", "!"),
        ("</ a>", "!"),
        ("<a b=c>", "!"),
        ("<a b='&#x10FFFF;&#000;&#x41;&amp;'>", "S"),
        ("<a b='&#xD800;'>", "!"),
        ("<a b='&#x110000;'>", "!"),
        ("<a b='&#99999999999999999999;'>", "!"),
        ("<a b='&#X41;'>", "!"),
        ("<a b='&#;'>", "!"),
        ("<a b='&bad;'>", "!"),
        ("<a b='&amp'>", "!"),
        ("&#32;<a>", "tS"),
    ] {
        assert_eq!(rt;
            kinds(rt.alloc(), text.as_bytes())?.as_str(),
            want,
            "{text}"
        );
    }
    Ok(())
}

#[test]
fn a_byte_that_begins_no_character_spoils_its_piece(rt: HostRuntime) -> Result<(), Fail> {
    for (text, want) in [
        (b" <?xml \xff?>".as_slice(), "b!"),
        (b" <!--\xc3-->".as_slice(), "b!"),
        (b" <![CDATA[\x80]]>".as_slice(), "b!"),
        (b" <a b='\xc3&lt;'>".as_slice(), "b!"),
        (b"<a/> \xff".as_slice(), "E!"),
        (b" </a\xff>".as_slice(), "b!"),
    ] {
        assert_eq!(rt; kinds(rt.alloc(), text)?.as_str(), want);
    }
    Ok(())
}

#[test]
fn references_are_read_in_values(rt: HostRuntime) -> Result<(), Fail> {
    let text = b"<a b='&lt;&gt;&amp;&quot;&apos;&#65;&#x20ac;\n'/>";
    match Cursor::new(text).piece(rt.alloc()) {
        Ok(Piece::Empty(tag)) => {
            assert_eq!(rt; tag.name.as_str(), "a");
            let attribute = tag.attributes.get(0).ok_or("no attribute")?;
            assert_eq!(rt; attribute.name.as_str(), "b");
            assert_eq!(rt; attribute.value.as_str(), "<>&\"'A\u{20ac}\n");
        }
        Ok(_other) => assert!(rt; false),
        Err(_) => assert!(rt; false),
    }
    Ok(())
}
