//! The code of a file.
ghost use Rattle.std.specs.Prelude.{◌≡◌, IfOk};
ghost use Rattle.tree_code.specs.FileCode as file;

use crate::functions::function;
use brs_grammar::tree::{FileTree, NamedFunction};
use chan_values::NoMemory;
use code_drafts::Draft;
use sqlite_items::Items;
use std::alloc::Global;

fn named_draft(alloc: Global, named: &NamedFunction) -> Result<Draft, NoMemory>
    ensures { IfOk result (λ d. d ≡ file.named_draft named.now) }
{
    match named {
        NamedFunction::Function(place, _, rest) => function(alloc, place.line, rest),
        NamedFunction::Sub(place, _, rest) => function(alloc, place.line, rest),
    }
}

/// The functions of a file in order, each as `Draft::Function`. Its anonymous functions stand in the code of those that make them. What
/// the tree has that no source file has, as a text that is no UTF-8, has code too.
pub fn file_drafts(alloc: Global, tree: &FileTree) -> Result<Items<Draft>, NoMemory>
    ensures { IfOk result (λ drafts. drafts ≡ file.file_drafts tree.now) }
{
    let mut drafts = Items::new(alloc);
    for named in tree.functions.as_slice() {
        match drafts.push(named_draft(alloc, named)?) {
            Ok(()) => {}
            Err(_) => return Err(NoMemory),
        }
    }
    Ok(drafts)
}
