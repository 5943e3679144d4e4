//! Copies of texts, values and messages.
ghost use Rattle.std.specs.Prelude.{◌≡◌, IfOk};
ghost use Rattle.chan_values.specs.View.{tree_pair_of};

use crate::{ItemList, Message, NoMemory, Pair, PairList, Portable, Text};
use std::alloc::Global;

/// A text that equals the argument.
pub fn copy_text(alloc: Global, t: &Text) -> Result<Text, NoMemory>
    ensures { IfOk result (λ copy. copy ≡ t.now) }
{
    let mut copy = Text::new(alloc);
    copy.push_str(t.as_str())?;
    Ok(copy)
}

#[cycle(copy)]
fn copy_items(alloc: Global, items: &ItemList) -> Result<ItemList, NoMemory>
    ensures { IfOk result (λ copy. copy ≡ items.now) }
{
    let mut copy = ItemList::new(alloc);
    for item in items.as_slice() {
        copy.push(copy_portable(alloc, item)?)?;
    }
    Ok(copy)
}

#[cycle(copy)]
fn copy_pair(alloc: Global, pair: &Pair) -> Result<Pair, NoMemory>
    ensures { IfOk result (λ copy. tree_pair_of copy ≡ tree_pair_of pair.now) }
{
    Ok(Pair {
        key: copy_text(alloc, &pair.key)?,
        value: copy_portable(alloc, &pair.value)?,
    })
}

#[cycle(copy)]
fn copy_pairs(alloc: Global, pairs: &PairList) -> Result<PairList, NoMemory>
    ensures { IfOk result (λ copy. copy ≡ pairs.now) }
{
    let mut copy = PairList::new(alloc);
    for pair in pairs.as_slice() {
        copy.push(copy_pair(alloc, pair)?)?;
    }
    Ok(copy)
}

/// A value that equals the argument.
#[cycle(copy)]
pub fn copy_portable(alloc: Global, p: &Portable) -> Result<Portable, NoMemory>
    ensures { IfOk result (λ copy. copy ≡ p.now) }
{
    match p {
        Portable::Nothing => Ok(Portable::Nothing),
        Portable::Truth(b) => Ok(Portable::Truth(*b)),
        Portable::Small(n) => Ok(Portable::Small(*n)),
        Portable::Big(n) => Ok(Portable::Big(*n)),
        Portable::Words(t) => Ok(Portable::Words(copy_text(alloc, t)?)),
        Portable::Items(items) => Ok(Portable::Items(copy_items(alloc, items)?)),
        Portable::Pairs(pairs) => Ok(Portable::Pairs(copy_pairs(alloc, pairs)?)),
        Portable::Node(n) => Ok(Portable::Node(*n)),
        Portable::Port(n) => Ok(Portable::Port(*n)),
    }
}

/// A message that equals the argument.
pub fn copy_message(alloc: Global, m: &Message) -> Result<Message, NoMemory>
    ensures { IfOk result (λ copy. copy ≡ m.now) }
{
    Ok(Message {
        node: m.node,
        id: copy_text(alloc, &m.id)?,
        field: copy_text(alloc, &m.field)?,
        payload: copy_portable(alloc, &m.payload)?,
    })
}
