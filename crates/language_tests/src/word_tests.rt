//! The words of tokens, each as a lexer gives them.
use brs_tokens::{Token, TokenKind};
use grammar_rules::{Word, is_keyword, is_name, is_word, place_of, same_word, word_of};
use std::test::Fail;

#[test]
fn each_kind_of_token_has_its_word(rt: HostRuntime) -> Result<(), Fail> {
    for (kind, slice, want) in [
        (TokenKind::Newline, "\n", Word::Newline),
        (TokenKind::Name, "Each", Word::Each),
        (TokenKind::Name, "longINTEGER", Word::LongInteger),
        (TokenKind::Name, "eaches", Word::Name),
        (TokenKind::Keyword, "ELSEif", Word::ElseIf),
        (TokenKind::Keyword, "while", Word::While),
        (TokenKind::Keyword, "whale", Word::End),
        (TokenKind::Number, "&hFF", Word::Number),
        (TokenKind::Text, "\"if\"", Word::Text),
        (TokenKind::Sign, "\\=", Word::BackslashEqual),
        (TokenKind::Sign, "<", Word::Less),
    ] {
        let token = Token {
            kind,
            slice: slice.as_bytes(),
            line: 3,
            column: 5,
        };
        assert_eq!(rt; word_of(&token), want);
        assert_eq!(rt; place_of(&token).line, 3);
        assert_eq!(rt; place_of(&token).column, 5);
    }
    Ok(())
}

#[test]
fn words_behind_a_dot_are_names_and_keywords(rt: HostRuntime) -> Result<(), Fail> {
    for (word, name, keyword) in [
        (Word::Name, true, false),
        (Word::As, true, false),
        (Word::Void, true, false),
        (Word::Function, false, true),
        (Word::And, false, true),
        (Word::EndIf, false, true),
        (Word::Text, false, false),
        (Word::Dot, false, false),
        (Word::End, false, false),
    ] {
        assert_eq!(rt; is_name(word), name);
        assert_eq!(rt; is_keyword(word), keyword);
        assert_eq!(rt; is_word(word), name || keyword);
        assert!(rt; same_word(word, word));
    }
    Ok(())
}
