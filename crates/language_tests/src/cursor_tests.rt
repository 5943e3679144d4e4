//! The loops at a concrete type, and the words that they stop at.
use brs_tokens::lex;
use grammar_rules::{Word, same_word};
use sqlite_items::Items;
use std::alloc::Global;
use std::test::Fail;
use token_cursor::{Cursor, EndedTurns, ParseError, ended, many, trail};

fn is_name(word: Word) -> bool {
    same_word(Word::Name, word)
}

fn is_comma(word: Word) -> bool {
    same_word(Word::Comma, word)
}

fn name(tokens: &mut Cursor<'_, '_>) -> Result<Option<u32>, ParseError> {
    let token = tokens.expect_if(is_name)?;
    Ok(Some(token.column))
}

fn comma(alloc: Global, tokens: &mut Cursor<'_, '_>) -> Result<Items<u32>, ParseError> {
    tokens.expect(Word::Comma)?;
    Ok(Items::new(alloc))
}

fn column(tokens: &mut Cursor<'_, '_>) -> Result<u32, ParseError> {
    let token = tokens.expect(Word::Else)?;
    Ok(token.column)
}

fn again(tokens: &mut Cursor<'_, '_>, at: u32) -> Result<Option<u32>, ParseError> {
    tokens.expect(Word::If)?;
    Ok(Some(at))
}

fn last(_tokens: &mut Cursor<'_, '_>, at: u32) -> Result<u32, ParseError> {
    Ok(at)
}

#[test]
fn repeated_forms_are_read(rt: HostRuntime) -> Result<(), Fail> {
    let alloc = rt.alloc();
    let Ok(tokens) = lex(alloc, "a B , c, ElseIf".as_bytes(), 1) else {
        return Ok(());
    };
    let mut cursor = Cursor::new(&tokens);
    let names = many(alloc, &mut cursor, is_name, name);
    assert!(rt; matches!(&names, Ok(names) if names.len() == 2));
    let more = trail(
        alloc,
        &mut cursor,
        is_comma,
        |tokens| comma(alloc, tokens),
        is_name,
        name,
    );
    assert!(rt; matches!(&more, Ok(more) if more.len() == 1));
    assert!(rt; cursor.peek() == Word::ElseIf);
    assert_eq!(rt; cursor.left(), 1);
    Ok(())
}

#[test]
fn names_and_words_are_told_apart(rt: HostRuntime) -> Result<(), Fail> {
    let alloc = rt.alloc();
    let Ok(tokens) = lex(alloc, "each.if 1".as_bytes(), 1) else {
        return Ok(());
    };
    let mut cursor = Cursor::new(&tokens);
    assert!(rt; matches!(cursor.expect_name(), Ok(token) if token.column == 1));
    assert!(rt; matches!(cursor.expect(Word::Dot), Ok(token) if token.column == 5));
    assert!(rt; matches!(cursor.expect_name(), Err(ParseError::Fault)));
    assert!(rt; matches!(cursor.expect_word(), Ok(token) if token.column == 6));
    assert!(rt; matches!(cursor.expect_word(), Err(ParseError::Fault)));
    assert_eq!(rt; cursor.left(), 1);
    Ok(())
}

#[test]
fn turns_end_with_the_last(rt: HostRuntime) -> Result<(), Fail> {
    let alloc = rt.alloc();
    let Ok(tokens) = lex(alloc, "a else if b ELSE c".as_bytes(), 1) else {
        return Ok(());
    };
    let mut cursor = Cursor::new(&tokens);
    let read = ended(
        alloc,
        &mut cursor,
        Word::Name,
        name,
        |word| same_word(Word::Else, word),
        column,
        Word::If,
        again,
        last,
    );
    assert!(rt; matches!(&read, Ok(EndedTurns { turns, last: Some(13) }) if turns.len() == 3));
    assert!(rt; cursor.peek() == Word::Name);
    Ok(())
}
