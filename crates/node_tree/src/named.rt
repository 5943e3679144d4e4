//! The nodes that a value names.
ghost use Rattle.std.specs.Prelude.{◌≡◌, [], ◌∷◌, ◌++◌, OnOk};
ghost use Rattle.chan_values.specs.Tree.{trees, values_of};
ghost use Rattle.chan_values.specs.View.{tree_of};
ghost use Rattle.field_types.specs.NamedNodes.{nodes_in, nodes_in_all};

use chan_values::{ItemList, NoMemory, PairList, Portable};

fn push_one(named: &mut Vec<u32>, node: u32) -> Result<(), NoMemory>
    ensures { OnOk result (named.new.items ≡ named.old.items ++ node ∷ []) }
{
    match named.push(node) {
        Ok(()) => Ok(()),
        Err(_) => Err(NoMemory),
    }
}

#[cycle(named)]
fn push_items(named: &mut Vec<u32>, items: &ItemList) -> Result<(), NoMemory>
    ensures { OnOk result (named.new.items ≡ named.old.items ++ nodes_in_all (trees items.now)) }
{
    for item in items.as_slice() {
        push_named(named, item)?;
    }
    Ok(())
}

#[cycle(named)]
fn push_pairs(named: &mut Vec<u32>, pairs: &PairList) -> Result<(), NoMemory>
    ensures { OnOk result (named.new.items ≡ named.old.items ++ nodes_in_all (trees (values_of pairs.now))) }
{
    for pair in pairs.as_slice() {
        push_named(named, &pair.value)?;
    }
    Ok(())
}

/// Adds the nodes that a value names, in order. After an `Err` some may be there.
#[cycle(named)]
pub fn push_named(named: &mut Vec<u32>, p: &Portable) -> Result<(), NoMemory>
    ensures { OnOk result (named.new.items ≡ named.old.items ++ nodes_in (tree_of p.now)) }
{
    match p {
        Portable::Node(node) => push_one(named, *node),
        Portable::Items(items) => push_items(named, items),
        Portable::Pairs(pairs) => push_pairs(named, pairs),
        _ => Ok(()),
    }
}
