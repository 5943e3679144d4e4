//! Lists of places and marks.
ghost use Rattle.std.specs.Prelude.{◌≡◌, [], ◌∷◌, ◌++◌, false, replicate, IfOk, OnOk};

use chan_values::NoMemory;
use std::alloc::Global;

/// Adds a place at the end.
pub(crate) fn push(places: &mut Vec<usize>, place: usize) -> Result<(), NoMemory>
    ensures { OnOk result (places.new.items ≡ places.old.items ++ place ∷ []) }
{
    match places.push(place) {
        Ok(()) => Ok(()),
        Err(_) => Err(NoMemory),
    }
}

/// Marks for so many kinds, all of them off.
pub(crate) fn unmarked(alloc: Global, kinds: usize) -> Result<Vec<bool>, NoMemory>
    ensures { IfOk result (λ marks. marks.items ≡ replicate kinds false) }
{
    match vec![in alloc; false; kinds] {
        Ok(marks) => Ok(marks),
        Err(_) => Err(NoMemory),
    }
}

/// The number 0 for each of so many kinds.
pub(crate) fn zeros(alloc: Global, kinds: usize) -> Result<Vec<usize>, NoMemory> {
    match vec![in alloc; 0; kinds] {
        Ok(numbers) => Ok(numbers),
        Err(_) => Err(NoMemory),
    }
}
