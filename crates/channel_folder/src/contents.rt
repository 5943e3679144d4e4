//! What the files of a folder hold.

use folder_rules::{PathedComponent, SourceFunctions};
use sqlite_items::Items;
use std::alloc::Global;

/// The component files of a folder, and the functions of its source texts, both in order of path; those of a component's inline scripts in their
/// order in the component.
#[derive(Drop)]
pub struct Contents {
    pub components: Items<PathedComponent>,
    pub sources: Items<SourceFunctions>,
}

impl Contents {
    ghost use Rattle.std.specs.Prelude.{◌≡◌};
    ghost use Rattle.channel_folder.specs.FileFaults.{nothing};

    /// Nothing. Takes no memory.
    pub(crate) fn new(alloc: Global) -> Contents
        ensures { result ≡ nothing }
    {
        Contents {
            components: Items::new(alloc),
            sources: Items::new(alloc),
        }
    }
}
