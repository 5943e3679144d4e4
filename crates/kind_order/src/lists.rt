//! Lists of places and marks.
ghost use Rattle.std.specs.Prelude.{◌≡◌, [], ◌∷◌, ◌++◌, false, replicate, IfOk, OnOk};

use chan_values::NoMemory;
use std::alloc::Global;

/// Adds a place at the end.
pub(crate) fn push(places: &mut Vec<usize>, place: usize) -> Result<(), NoMemory>
    ensures { OnOk result (places.new.items ≡ places.old.items ++ place ∷ []) }
{
    match places.push(place) {
        Ok(()) => Ok(()),
        Err(_) => Err(NoMemory),
    }
}

/// Marks for so many components, all of them off.
pub(crate) fn unmarked(alloc: Global, count: usize) -> Result<Vec<bool>, NoMemory>
    ensures { IfOk result (λ marks. marks.items ≡ replicate count false) }
{
    match vec![in alloc; false; count] {
        Ok(marks) => Ok(marks),
        Err(_) => Err(NoMemory),
    }
}
