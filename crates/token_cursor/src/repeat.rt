//! The loops that repeated forms are read by.
ghost use Rattle.std.specs.Prelude.{◌≡◌, ◌++◌, Bool, IfOk, List, OnErr, OnOk};
ghost use Rattle.std.specs.Option.{option_to_list};
ghost use Rattle.grammar_rules.specs.declared.word.Word.{Word};
ghost use Rattle.grammar_rules.specs.Reading as reading;
ghost use Rattle.grammar_rules.specs.Reading.{Parser};
ghost use Rattle.token_cursor.specs.Reads.{Reads};
ghost use Rattle.token_cursor.specs.Turns.{GapsBy, Tests, TurnsBy};

use crate::cursor::{Cursor, ParseError};
use grammar_rules::Word;
use sqlite_items::Items;
use std::alloc::{AllocError, Global};

/// Adds the item at the end, if there is one. After want of memory the list is as it was.
pub fn keep<A: Drop>(found: &mut Items<A>, item: Option<A>) -> Result<(), AllocError>
    ensures kept { OnOk result (found.new ≡ found.old ++ option_to_list item) }
    ensures unchanged { OnErr result (found.new ≡ found.old) }
{
    match item {
        Some(item) => found.push(item),
        None => Ok(()),
    }
}

/// The list of an item, if there is one, and of what follows it.
pub fn prepend<A: Drop>(
    alloc: Global,
    first: Option<A>,
    more: Items<A>,
) -> Result<Items<A>, AllocError>
    ensures { IfOk result (λ all. all ≡ option_to_list first ++ more) }
{
    let mut all = Items::new(alloc);
    keep(&mut all, first)?;
    all.append(more)?;
    Ok(all)
}

/// Turns while the next token begins one. A turn may have nothing to keep.
pub fn many<
    A: Drop,
    B: Fn(Word) -> bool,
    T: Fn(&mut Cursor<'_, '_>) -> Result<Option<A>, ParseError>,
>(alloc: Global, tokens: &mut Cursor<'_, '_>, begins: B, turn: T) -> Result<Items<A>, ParseError>
    requires begins { B.IsAlwaysCallable begins }
    requires turn { T.IsAlwaysCallable turn }
    ensures { (test : Word → Bool) (p : Parser (List A)) → Tests (B.post begins) test → TurnsBy _ (T.post turn) p → Reads (reading.many test p tokens.old) result tokens.new }
{
    let mut found = Items::new(alloc);
    for _turn in 0..tokens.left() {
        if !begins(tokens.peek()) {
            return Ok(found);
        }
        let item = turn(tokens)?;
        keep(&mut found, item)?;
    }
    Ok(found)
}

/// Gaps and items in turn, from a gap on; it may end behind a gap. A gap or an item may have nothing to keep.
pub fn trail<
    A: Drop,
    B: Fn(Word) -> bool,
    C: Fn(Word) -> bool,
    S: Fn(&mut Cursor<'_, '_>) -> Result<Items<A>, ParseError>,
    T: Fn(&mut Cursor<'_, '_>) -> Result<Option<A>, ParseError>,
>(
    alloc: Global,
    tokens: &mut Cursor<'_, '_>,
    gaps: B,
    gap: S,
    items: C,
    item: T,
) -> Result<Items<A>, ParseError>
    requires gaps { B.IsAlwaysCallable gaps }
    requires items { C.IsAlwaysCallable items }
    requires gap { S.IsAlwaysCallable gap }
    requires item { T.IsAlwaysCallable item }
    ensures { (g i : Word → Bool) (p q : Parser (List A)) → Tests (B.post gaps) g → Tests (C.post items) i → GapsBy _ (S.post gap) p → TurnsBy _ (T.post item) q → Reads (reading.trail g i p q tokens.old) result tokens.new }
{
    let mut found = Items::new(alloc);
    for _turn in 0..tokens.left() {
        if !gaps(tokens.peek()) {
            return Ok(found);
        }
        let between = gap(tokens)?;
        found.append(between)?;
        if !items(tokens.peek()) {
            return Ok(found);
        }
        let next = item(tokens)?;
        keep(&mut found, next)?;
    }
    Ok(found)
}
