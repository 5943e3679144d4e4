//! How many posts each actor has made, and queues of any items.
ghost use Rattle.std.specs.Prelude.{◌≡◌, ℕ, ◌+◌, ◌<◌, [], ◌∷◌, ◌++◌, length, slice_index_or, OnOk, OnErr, IfOk};

use chan_values::NoMemory;
use std::collections::VecDeque;

/// Makes room for the count of an actor, and answers it. No count changes.
pub fn count_of(posts: &mut Vec<u64>, actor: u32) -> Result<u64, NoMemory>
    ensures count { IfOk result (λ count. count ≡ slice_index_or posts.old.items actor 0) }
    ensures room { OnOk result (actor < length posts.new.items) }
    ensures same { (a : ℕ) → slice_index_or posts.new.items a 0 ≡ slice_index_or posts.old.items a 0 }
{
    let at = actor as usize;
    if at >= posts.len() {
        let Ok(()) = posts.resize(at + 1, 0) else {
            return Err(NoMemory);
        };
    }
    Ok(posts[at])
}

/// Puts an item behind all others. After an `Err` nothing has changed. Generic, so that the drop of an item that finds no
/// room is one call.
pub fn put<T: Drop>(queue: &mut VecDeque<T>, item: T) -> Result<(), NoMemory>
    ensures ok { OnOk result (queue.new.items ≡ queue.old.items ++ item ∷ []) }
    ensures err { OnErr result (queue.new.items ≡ queue.old.items) }
{
    match queue.push_back(item) {
        Ok(()) => Ok(()),
        Err(_) => Err(NoMemory),
    }
}

/// Drops a value of any type, so that no caller holds the steps of that drop.
pub fn discard<T: Drop>(_value: T) {}
