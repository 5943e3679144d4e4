//! What no clause says: a tree crosses threads, and what is made of words.
use brs_grammar::classes::{
    begins_expression, begins_key, begins_line, begins_named, begins_simple,
};
use brs_grammar::signs::{comparison_sign, ends_in_call, product_sign, type_of};
use brs_grammar::tree::{
    ComparisonSign, FileTree, Name, NamedFunction, Postfix, ProductSign, Rest, Target, TypeWord,
};
use brs_tokens::Place;
use grammar_rules::Word;
use sqlite_items::Items;
use std::alloc::{AllocError, Global};
use std::test::Fail;
use std::thread::join;

const START: Place = Place { line: 1, column: 1 };

fn may_be_shared<T: Send + Sync>(_value: &T) {}

fn named(alloc: Global, letter: u8) -> Result<Name, AllocError> {
    let mut text = Items::new(alloc);
    text.push(letter)?;
    Ok(Name { place: START, text })
}

fn short_file(alloc: Global) -> Result<FileTree, AllocError> {
    let rest = Rest {
        parameters: Items::new(alloc),
        value: None,
        body: Items::new(alloc),
    };
    let mut functions = Items::new(alloc);
    functions.push(NamedFunction::Sub(START, named(alloc, b'f')?, rest))?;
    Ok(FileTree { functions })
}

fn target(alloc: Global, is_called: bool) -> Result<Target, AllocError> {
    let mut more = Items::new(alloc);
    more.push(Postfix::Arguments(START, Items::new(alloc)))?;
    if !is_called {
        more.push(Postfix::Member(START, named(alloc, b'k')?))?;
    }
    Ok(Target {
        name: named(alloc, b'x')?,
        more,
    })
}

#[test]
fn trees_cross_threads(rt: HostRuntime) -> Result<(), Fail> {
    let alloc = rt.alloc();
    let (here, there) = join(&rt, || short_file(alloc), || short_file(alloc));
    let here = here?;
    may_be_shared(&here);
    assert_eq!(rt; here.functions.len(), 1);
    assert_eq!(rt; there?.functions.len(), 1);
    Ok(())
}

#[test]
fn a_call_ends_in_its_arguments(rt: HostRuntime) -> Result<(), Fail> {
    assert!(rt; ends_in_call(&target(rt.alloc(), true)?));
    assert!(rt; !ends_in_call(&target(rt.alloc(), false)?));
    Ok(())
}

#[test]
fn words_begin_their_forms(rt: HostRuntime) -> Result<(), Fail> {
    for (word, expression, key, simple, line, named) in [
        (Word::Name, true, true, true, true, false),
        (Word::Not, true, true, false, false, false),
        (Word::Text, true, true, false, false, false),
        (Word::Question, false, false, true, true, false),
        (Word::If, false, true, false, true, false),
        (Word::Sub, true, true, false, false, true),
        (Word::End, false, false, false, false, false),
    ] {
        assert_eq!(rt; begins_expression(word), expression);
        assert_eq!(rt; begins_key(word), key);
        assert_eq!(rt; begins_simple(word), simple);
        assert_eq!(rt; begins_line(word), line);
        assert_eq!(rt; begins_named(word), named);
    }
    assert_eq!(rt; product_sign(Word::Backslash), ProductSign::Divide);
    assert_eq!(rt; comparison_sign(Word::LessEqual), ComparisonSign::LessEqual);
    assert_eq!(rt; type_of(Word::Function), TypeWord::Function);
    Ok(())
}
