//! The loop that turns with a last turn of another kind are read by.
ghost use Rattle.std.specs.Prelude.{◌≡◌, Bool, List};
ghost use Rattle.std.specs.Option.{option_to_list};
ghost use Rattle.grammar_rules.specs.declared.word.Word.{Word};
ghost use Rattle.grammar_rules.specs.Reading as reading;
ghost use Rattle.grammar_rules.specs.Reading.{Parser};
ghost use Rattle.grammar_rules.specs.Words.{same_word};
ghost use Rattle.token_cursor.specs.Endings.{HeadsBy, OthersBy, LastsBy, ending_of};
ghost use Rattle.token_cursor.specs.Reads.{Gives};
ghost use Rattle.token_cursor.specs.Turns.{Tests, TurnsBy};

use crate::cursor::{Cursor, ParseError};
use crate::repeat::keep;
use grammar_rules::{Word, same_word};
use sqlite_items::Items;
use std::alloc::Global;

/// Turns, and at most one last turn of another kind.
#[derive(Drop)]
pub struct EndedTurns<A, B> {
    /// The turns of both kinds in order.
    pub turns: Items<A>,
    /// The last turn.
    pub last: Option<B>,
}

/// Turns of two kinds, and at most one last turn. The second kind and the last turn have one beginning, `head`; the word `again` behind it
/// tells that a turn goes on.
pub fn ended<
    A: Drop,
    B: Drop,
    E: Drop,
    D: Fn(Word) -> bool,
    T: Fn(&mut Cursor<'_, '_>) -> Result<Option<A>, ParseError>,
    H: Fn(&mut Cursor<'_, '_>) -> Result<E, ParseError>,
    O: Fn(&mut Cursor<'_, '_>, E) -> Result<Option<A>, ParseError>,
    L: Fn(&mut Cursor<'_, '_>, E) -> Result<B, ParseError>,
>(
    alloc: Global,
    tokens: &mut Cursor<'_, '_>,
    turns: Word,
    turn: T,
    heads: D,
    head: H,
    again: Word,
    other: O,
    last: L,
) -> Result<EndedTurns<A, B>, ParseError>
    requires turn { T.IsAlwaysCallable turn }
    requires heads { D.IsAlwaysCallable heads }
    requires head { H.IsAlwaysCallable head }
    requires other { O.IsAlwaysCallable other }
    requires last { L.IsAlwaysCallable last }
    ensures { (h : Word → Bool) (p : Parser (List A)) (q : Parser E) (r : E → Parser (List A)) (s : E → Parser B) → Tests (D.post heads) h → TurnsBy _ (T.post turn) p → HeadsBy _ (H.post head) q → OthersBy _ _ (O.post other) r → LastsBy _ _ (L.post last) s → Gives ending_of (reading.ended (same_word turns) h (same_word again) p q r s tokens.old) result tokens.new }
{
    let mut found = Items::new(alloc);
    for _turn in 0..tokens.left() {
        if same_word(turns, tokens.peek()) {
            let item = turn(tokens)?;
            keep(&mut found, item)?;
            continue;
        }
        if !heads(tokens.peek()) {
            return Ok(EndedTurns {
                turns: found,
                last: None,
            });
        }
        let begun = head(tokens)?;
        if !same_word(again, tokens.peek()) {
            let end = last(tokens, begun)?;
            return Ok(EndedTurns {
                turns: found,
                last: Some(end),
            });
        }
        let more = other(tokens, begun)?;
        keep(&mut found, more)?;
    }
    Ok(EndedTurns {
        turns: found,
        last: None,
    })
}
