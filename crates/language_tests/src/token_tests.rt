//! Worked examples of the spelling, and the happy paths.
use brs_tokens::{
    LexAnswer, LexFault, LexKind, NumberValue, TokenKind, TokenList, lex, lex_first, number_value,
    text_value,
};
use chan_values::NoMemory;
use std::alloc::Global;
use std::process::Abort;
use std::test::Fail;

fn kind_letter(kind: TokenKind) -> char {
    match kind {
        TokenKind::Newline => 'L',
        TokenKind::Name => 'N',
        TokenKind::Keyword => 'K',
        TokenKind::Number => '#',
        TokenKind::Text => 'T',
        TokenKind::Sign => 'S',
    }
}

/// Each token as its kind, its line, its column and its length.
fn shown(alloc: Global, tokens: &TokenList<'_>) -> Result<String, Fail> {
    let mut out = String::new(alloc);
    for at in 0..tokens.len() {
        if let Some(token) = tokens.get(at) {
            let kind = kind_letter(token.kind);
            let line = token.line;
            let column = token.column;
            let len = token.slice.len();
            let piece = format!(in alloc; "{kind} {line}:{column}+{len}, ")?;
            out.push_str(&piece)?;
        }
    }
    Ok(out)
}

fn shown_answer(alloc: Global, answer: Result<TokenList<'_>, LexAnswer>) -> Result<String, Fail> {
    match answer {
        Ok(tokens) => shown(alloc, &tokens),
        Err(answer) => Ok(format!(in alloc; "{answer:?}")?),
    }
}

#[test]
fn each_kind_of_piece_is_spelled(rt: HostRuntime) -> Result<(), Fail> {
    let alloc = rt.alloc();
    for (src, want) in [
        ("", ""),
        (" \t\r", ""),
        ("\n\n", "L 1:1+1, L 2:1+1, "),
        ("'a b\n' c", "L 1:5+1, "),
        ("REM x\nrem", "L 1:6+1, "),
        ("remark _a9", "N 1:1+6, N 1:8+3, "),
        ("a.rem b", "N 1:1+1, S 1:2+1, "),
        ("1rem x", "# 1:1+1, "),
        ("EndIf endIff", "K 1:1+5, N 1:7+6, "),
        ("rEturn m", "K 1:1+6, N 1:8+1, "),
        (
            "1each 1e 1.",
            "# 1:1+1, N 1:2+4, # 1:7+1, N 1:8+1, # 1:10+1, S 1:11+1, ",
        ),
        ("1E5 a1e5", "# 1:1+1, N 1:2+2, N 1:5+4, "),
        ("1&h2", "# 1:1+2, N 1:3+2, "),
        ("&hFf& &H0g", "# 1:1+5, # 1:7+3, N 1:10+1, "),
        ("\"\" \"a\"\"b\"", "T 1:1+2, T 1:4+6, "),
        ("\"é\"x", "T 1:1+4, N 1:5+1, "),
        ("<=<>=<<>>", "S 1:1+2, S 1:3+2, S 1:5+1, S 1:6+2, S 1:8+2, "),
        ("+++=--=", "S 1:1+2, S 1:3+2, S 1:5+2, S 1:7+1, "),
        ("\u{FEFF}a", "N 1:4+1, "),
    ] {
        let got = shown_answer(alloc, lex(alloc, src.as_bytes(), 1))?;
        assert_eq!(rt; got.as_str(), want, "{src}");
    }
    Ok(())
}

fn fault_of(src: &[u8], alloc: Global) -> Option<LexFault> {
    if src.len() > 99 {
        return None;
    }
    match lex(alloc, src, 7) {
        Err(LexAnswer::Fault(fault)) => Some(fault),
        _ => None,
    }
}

#[test]
fn the_first_fault_is_named(rt: HostRuntime) -> Result<(), Fail> {
    let alloc = rt.alloc();
    for (src, kind, line, column) in [
        ("x = 1.5", LexKind::FloatLiteral, 7, 5),
        ("x = 4/2", LexKind::Slash, 7, 6),
        ("\"a\"\"\n", LexKind::OpenText, 7, 4),
        ("1e5", LexKind::FloatLiteral, 7, 1),
        ("\n1d+5", LexKind::FloatLiteral, 8, 1),
        ("a.5", LexKind::FloatLiteral, 7, 2),
        ("1..5", LexKind::FloatLiteral, 7, 3),
        ("&h1.5", LexKind::FloatLiteral, 7, 4),
        ("1&.5", LexKind::FloatLiteral, 7, 3),
        ("9223372036854775808.5", LexKind::FloatLiteral, 7, 1),
        ("9223372036854775808", LexKind::NumberTooLarge, 7, 1),
        ("&h10000000000000000", LexKind::NumberTooLarge, 7, 1),
        ("1&&", LexKind::BadCharacter, 7, 3),
        ("&h", LexKind::BadCharacter, 7, 1),
        ("é/", LexKind::BadCharacter, 7, 1),
        ("\u{FEFF}\u{FEFF}", LexKind::BadCharacter, 7, 4),
        ("a\u{FEFF}", LexKind::BadCharacter, 7, 2),
        ("'é\n\r/", LexKind::Slash, 8, 2),
        ("\"é\" @", LexKind::BadCharacter, 7, 6),
        ("\"", LexKind::OpenText, 7, 1),
    ] {
        let want = LexFault { kind, line, column };
        assert_eq!(rt; fault_of(src.as_bytes(), alloc), Some(want), "{src}");
    }
    Ok(())
}

#[test]
fn a_byte_that_begins_no_character_is_named(rt: HostRuntime) -> Result<(), Fail> {
    let alloc = rt.alloc();
    for (src, kind, line, column) in [
        (b"\"\xFF\"".as_slice(), LexKind::NotUtf8, 7, 2),
        (b"\"\xFF\n".as_slice(), LexKind::OpenText, 7, 1),
        (b"'\xE2\x82".as_slice(), LexKind::NotUtf8, 7, 2),
        (b"a\n \xC0\x80".as_slice(), LexKind::NotUtf8, 8, 2),
        (b"/\xFF".as_slice(), LexKind::Slash, 7, 1),
        (b"\xEF\xBB".as_slice(), LexKind::NotUtf8, 7, 1),
    ] {
        let want = LexFault { kind, line, column };
        assert_eq!(rt; fault_of(src, alloc), Some(want));
    }
    Ok(())
}

fn is_first(rt: &impl Abort, alloc: Global, src: &str) -> Result<bool, NoMemory> {
    assert!(rt; src.len() < 99);
    match lex_first(alloc, src.as_bytes())? {
        Some(tokens) => {
            assert!(rt; tokens.len() <= src.len());
            Ok(true)
        }
        None => Ok(false),
    }
}

#[test]
fn the_first_form_has_its_pieces_alone(rt: HostRuntime) -> Result<(), Fail> {
    let alloc = rt.alloc();
    for (src, want) in [
        (
            "sub main()\r\n\tx = 7\nprint \"x=\"; x + 2 - y\nend sub\n",
            true,
        ),
        ("2147483647", true),
        ("2147483648", false),
        ("00002147483647", true),
        ("1a", false),
        ("1_", false),
        ("1 a", true),
        ("1&", false),
        ("&h1", false),
        ("+-", false),
        ("--", false),
        ("+=", false),
        ("-=", false),
        ("+ - =", true),
        ("=-", true),
        ("\"a\"\"b\"", false),
        ("\"a\"\"\n", false),
        ("\"a\\b\"", false),
        ("\"a\u{7F}\"", false),
        ("\"a~ b\"", true),
        ("\"é\"", false),
        ("\"a", false),
        ("rem", false),
        ("REM x", false),
        ("remark Print pRINT m", true),
        ("'", false),
        ("1.5", false),
        ("1e5", false),
        ("x * 2", false),
        ("x < 2", false),
        ("a: b", false),
        ("\u{FEFF}a", false),
        ("a\u{0}", false),
        ("", true),
    ] {
        assert_eq!(rt; is_first(&rt, alloc, src)?, want, "{src}");
    }
    Ok(())
}

#[test]
fn numbers_and_texts_have_their_values(rt: HostRuntime) -> Result<(), Fail> {
    let alloc = rt.alloc();
    for (src, want) in [
        ("007", Some(NumberValue::Integer(7))),
        ("2147483647", Some(NumberValue::Integer(2_147_483_647))),
        ("2147483648", Some(NumberValue::LongInteger(2_147_483_648))),
        ("5&", Some(NumberValue::LongInteger(5))),
        (
            "9223372036854775807",
            Some(NumberValue::LongInteger(i64::MAX)),
        ),
        ("9223372036854775808", None),
        ("&hFFFFFFFF", Some(NumberValue::Integer(-1))),
        ("&H0000000080000000", Some(NumberValue::Integer(i32::MIN))),
        ("&hffffffff&", Some(NumberValue::LongInteger(4_294_967_295))),
        ("&h1FFFFFFFF", Some(NumberValue::LongInteger(8_589_934_591))),
        ("&hFFFFFFFFFFFFFFFF", Some(NumberValue::LongInteger(-1))),
        ("&h00", Some(NumberValue::Integer(0))),
        ("&h10000000000000000", None),
    ] {
        assert_eq!(rt; number_value(src.as_bytes()), want, "{src}");
    }
    for (src, want) in [
        ("\"\"", ""),
        ("\"a\"", "a"),
        ("\"\"\"\"", "\""),
        ("\"é\"\"b\"\"\"", "é\"b\""),
    ] {
        assert_eq!(rt; text_value(alloc, src.as_bytes())?.as_str(), want);
    }
    Ok(())
}
