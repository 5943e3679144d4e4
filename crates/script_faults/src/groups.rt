//! Source texts by path.
ghost use Rattle.std.specs.Prelude.{◌≡◌, ℕ, List, [], ◌∷◌, ◌++◌, if◌then◌else◌, OnOk};
ghost use Rattle.std.specs.BTreeMap.{get_by_text};
ghost use Rattle.std.specs.Option.{option_map_or};
ghost use Rattle.std.specs.Str.{bytes_eq};
ghost use Rattle.std.specs.String.{string_bytes};
ghost use Rattle.script_faults.specs.Sources.{source_of, sources_at, sources_of};

use crate::NumberedSource;
use chan_values::{NoMemory, copy_text};
use std::alloc::{AllocError, Global};
use std::collections::BTreeMap;

/// Source texts by path, those of one path in the order in which they came. Takes a number of comparisons that grows with the logarithm of how
/// many paths there are.
#[derive(Drop)]
pub struct SourceGroups<'a> {
    groups: BTreeMap<String, Vec<NumberedSource<'a>>>,
}

impl<'a> SourceGroups<'a> {
    /// No source texts. Takes no memory.
    pub fn new(alloc: Global) -> SourceGroups<'a>
        ensures { (path : List ℕ) → sources_at result path ≡ [] }
    {
        SourceGroups {
            groups: BTreeMap::new(alloc),
        }
    }

    /// The source texts of a path, in order. Takes no memory.
    pub fn get(&self, path: &str) -> Option<&[NumberedSource<'a>]>
        ensures { option_map_or (λ sources. sources_of sources.now) result [] ≡ sources_at self.now path.now }
    {
        match self.groups.get(path) {
            Some(group) => Some(group.as_slice()),
            None => None,
        }
    }

    /// Adds a source text, behind those of its path.
    pub fn add(&mut self, alloc: Global, source: NumberedSource<'a>) -> Result<(), NoMemory>
        ensures { OnOk result ((path : List ℕ) → sources_at self.new path ≡ sources_at self.old path ++ (if bytes_eq source.entry.text.now.path path then source_of source.entry ∷ [] else [])) }
    {
        let path = copy_text(alloc, &source.text.path)?;
        match self.push(path.into_string(), source) {
            Ok(()) => Ok(()),
            Err(_) => Err(NoMemory),
        }
    }

    /// Adds a source text to those of a path.
    #[tactic(auto, using(std::proofs::lemmas::Grind::text_groups))]
    fn push(&mut self, path: String, source: NumberedSource<'a>) -> Result<(), AllocError>
        ensures { OnOk result ((q : List ℕ) → option_map_or (λ group. group.items) (get_by_text self.new.groups q) [] ≡ option_map_or (λ group. group.items) (get_by_text self.old.groups q) [] ++ (if bytes_eq q (string_bytes path) then source.entry ∷ [] else [])) }
    {
        self.groups.entry(path)?.or_default().push(source)?;
        Ok(())
    }
}
