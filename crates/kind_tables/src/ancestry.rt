//! The way from a kind to its base, the base of that, and so on.
ghost use Rattle.std.specs.Prelude.{◌≡◌, [], ◌∷◌, length, MatchOption};
ghost use Rattle.std.specs.Option.{option_copied};
ghost use Rattle.kind_tables.specs.Rows.{row_at, rows_from};

use crate::rows::KindRow;
use std::marker::Model;

/// The row at a place.
pub(crate) fn row_at(rows: &[KindRow], place: Option<usize>) -> Option<&KindRow>
    ensures { option_copied result ≡ row_at rows.now place }
{
    match place {
        Some(place) => rows.get(place),
        None => None,
    }
}

/// A kind, its base, the base of that, and so on, each once. Contracts see the list of their rows.
#[derive(Drop)]
pub(crate) struct Ancestry<'a> {
    rows: &'a [KindRow],
    place: Option<usize>,
    /// How many kinds there may still be.
    left: usize,
}

impl<'a> Model for Ancestry<'a> {
    ghost use Rattle.std.specs.Prelude.{List};
    ghost use Rattle.kind_tables.specs.Rows.{rows_from};
    ghost use Rattle.kind_tables.specs.declared.rows.KindRow.{KindRow};

    ghost Value = { List KindRow };

    ghost view = { λ a. rows_from a.left a.rows.now a.place };
}

impl<'a> Ancestry<'a> {
    /// The kind at a place, and what it leads to.
    pub(crate) fn new(rows: &'a [KindRow], place: Option<usize>) -> Ancestry<'a>
        ensures { result ≡ rows_from (length rows.now) rows.now place }
    {
        Ancestry {
            rows,
            place,
            left: rows.len(),
        }
    }

    /// The next kind.
    pub(crate) fn next(&mut self) -> Option<&'a KindRow>
        ensures { MatchOption result (self.old ≡ []) (λ row. self.old ≡ row.now ∷ self.new) }
    {
        if self.left == 0 {
            return None;
        }
        let row = row_at(self.rows, self.place)?;
        self.left -= 1;
        self.place = row.base;
        Some(row)
    }
}
