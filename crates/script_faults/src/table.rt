//! The source texts of a channel, in order and by path.
ghost use Rattle.std.specs.Prelude.{◌≡◌, ℕ, ◌<◌, ◌++◌, [], ◌∷◌, List, filter, OnOk, IfOk};
ghost use Rattle.folder_rules.specs.Scripts.{Source, is_file, is_inline_in, numbered};
ghost use Rattle.script_faults.specs.Sources.{source_of, sources_at, IsTableOf, function_count};

use crate::{NumberedSource, SourceGroups};
use chan_values::NoMemory;
use folder_rules::SourceFunctions;
use std::alloc::Global;

/// The source texts of a channel, in order, and the files and inline scripts among them by path.
#[derive(Drop)]
pub struct SourceTable<'a> {
    pub(crate) all: Vec<NumberedSource<'a>>,
    pub(crate) files: SourceGroups<'a>,
    /// By the path of the component file.
    pub(crate) inline: SourceGroups<'a>,
}

impl<'a> SourceTable<'a> {
    /// No source texts. Takes no memory.
    fn new(alloc: Global) -> SourceTable<'a>
        ensures { IsTableOf result [] }
    {
        SourceTable {
            all: Vec::new(alloc),
            files: SourceGroups::new(alloc),
            inline: SourceGroups::new(alloc),
        }
    }

    /// Adds a source text to those of its path.
    fn add_by_path(&mut self, alloc: Global, source: NumberedSource<'a>) -> Result<(), NoMemory>
        ensures all { self.new.all ≡ self.old.all }
        ensures files { OnOk result ((path : List ℕ) → sources_at self.new.files path ≡ sources_at self.old.files path ++ filter (is_file path) (source_of source.entry ∷ [])) }
        ensures inline { OnOk result ((path : List ℕ) → sources_at self.new.inline path ≡ sources_at self.old.inline path ++ filter (is_inline_in path) (source_of source.entry ∷ [])) }
    {
        if source.text.inline {
            self.inline.add(alloc, source)
        } else {
            self.files.add(alloc, source)
        }
    }

    /// Adds a source text behind the others.
    fn add(&mut self, alloc: Global, source: NumberedSource<'a>) -> Result<(), NoMemory>
        ensures { OnOk result ((before : List Source) → IsTableOf self.old before → IsTableOf self.new (before ++ source_of source.entry ∷ [])) }
    {
        self.add_by_path(alloc, source)?;
        match self.all.push(source) {
            Ok(()) => Ok(()),
            Err(_) => Err(NoMemory),
        }
    }
}

/// The table of a channel's source texts, which stand in order of path, the inline scripts after their component file. They have fewer than 2^32
/// functions in all.
pub fn source_table<'a>(
    alloc: Global,
    sources: &'a [SourceFunctions],
) -> Result<SourceTable<'a>, NoMemory>
    requires { function_count sources.now < 4294967296 }
    ensures { IfOk result (λ table. IsTableOf table (numbered 0 sources.now)) }
{
    let mut table = SourceTable::new(alloc);
    let mut number = 0;
    for text in sources {
        table.add(alloc, NumberedSource { number, text })?;
        number += text.functions.len();
    }
    Ok(table)
}
