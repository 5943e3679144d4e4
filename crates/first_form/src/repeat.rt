//! What stands any number of times.
ghost use Rattle.std.specs.Prelude.{◌≡◌, ◌++◌, Bool, List, OnOk};
ghost use Rattle.brs_tokens.specs.Tok.{Tok};
ghost use Rattle.first_form.specs.FirstReading as reading;
ghost use Rattle.first_form.specs.FirstReading.{Reading};
ghost use Rattle.first_form.specs.FirstStop.{Reads, option_items};
ghost use Rattle.first_form.specs.FirstTurns.{Tests, TurnsBy};

use crate::cursor::{Cursor, Stop};
use sqlite_items::Items;
use std::alloc::{AllocError, Global};

fn keep<A: Drop>(found: &mut Items<A>, item: Option<A>) -> Result<(), AllocError>
    ensures { OnOk result (found.new ≡ found.old ++ option_items item) }
{
    match item {
        Some(item) => found.push(item),
        None => Ok(()),
    }
}

/// Turns while the next token begins one. A turn may leave nothing.
pub(crate) fn many<
    A: Drop,
    B: Fn(&Cursor<'_, '_>) -> bool,
    T: Fn(&mut Cursor<'_, '_>) -> Result<Option<A>, Stop>,
>(alloc: Global, tokens: &mut Cursor<'_, '_>, begins: B, turn: T) -> Result<Items<A>, Stop>
    requires begins { B.IsAlwaysCallable begins }
    requires turn { T.IsAlwaysCallable turn }
    ensures { (test : List Tok → Bool) (p : Reading (List A)) → Tests (B.post begins) test → TurnsBy _ (T.post turn) p
        → Reads (reading.many test p tokens.old) result tokens.new }
{
    let mut found = Items::new(alloc);
    for _turn in 0..tokens.left() {
        if !begins(tokens) {
            return Ok(found);
        }
        let item = turn(tokens)?;
        keep(&mut found, item)?;
    }
    Ok(found)
}
