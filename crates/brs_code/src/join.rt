//! The code of several files and their scopes as one.
ghost use Rattle.std.specs.Prelude.{◌≡◌, ◌+◌, ◌-◌, ◌^◌, ◌<◌, min, [], ◌∷◌, ◌++◌, length, IfOk, OnOk, OnErr};
ghost use Rattle.brs_code.specs.Join.{joined, function_count};
ghost use Rattle.brs_code.specs.Rule.{IsFilePart};

use crate::{Code, FunctionList, ScopeEntry, ScopeList};
use chan_values::{NoMemory, copy_text};
use sqlite_items::Items;
use std::alloc::Global;

/// A list of the same entries.
fn copy_scope(alloc: Global, names: &ScopeList) -> Result<ScopeList, NoMemory>
    ensures { IfOk result (λ copy. copy ≡ names.now) }
{
    let mut copy = ScopeList::new(alloc);
    for entry in names.as_slice() {
        let name = copy_text(alloc, &entry.name)?;
        copy.push(ScopeEntry {
            name,
            function: entry.function,
        })?;
    }
    Ok(copy)
}

impl Code {
    /// The code of no file: no functions and no scopes. Takes no memory.
    pub fn new(alloc: Global) -> Code
        ensures named { result.named ≡ [] }
        ensures anonymous { result.anonymous ≡ [] }
        ensures scopes { result.scopes ≡ [] }
    {
        Code {
            named: FunctionList::new(alloc),
            anonymous: FunctionList::new(alloc),
            scopes: Items::new(alloc),
        }
    }

    /// How many functions there are, with and without a name: below 2^32 in code that can be joined. Takes no memory.
    pub fn function_count(&self) -> usize
        ensures { result ≡ min (function_count self.now) (2 ^ 64 - 1) }
    {
        self.named.len().saturating_add(self.anonymous.len())
    }

    /// Adds the code of a file, whose scopes are dropped. `path` is the number of its path in the listing. Answers the number of the
    /// first of its named functions: these are numbered on from those that were there, in the order of their places. After an `Err`
    /// nothing has changed.
    pub fn join(&mut self, path: u32, file: Code) -> Result<u32, NoMemory>
        requires { function_count self.old + function_count file < 2 ^ 32 }
        ensures first { IfOk result (λ first. first ≡ length self.old.named) }
        ensures joined { OnOk result (self.new ≡ joined self.old path file) }
        ensures unchanged { OnErr result (self.new ≡ self.old) }
        ensures file_part { IsFilePart self.old → IsFilePart file → IsFilePart self.new }
    {
        let first = self.named.len();
        let before = self.anonymous.len();
        let Code {
            mut named,
            mut anonymous,
            scopes: _scopes,
        } = file;
        named.move_behind(path, before);
        anonymous.move_behind(path, before);
        self.named.append(named)?;
        match self.anonymous.append(anonymous) {
            Ok(()) => Ok(first as u32),
            Err(refused) => {
                self.named.truncate(first);
                Err(refused)
            }
        }
    }

    /// Adds a scope with a copy of these entries: folded names, distinct, each with the number of a named function. Answers its number,
    /// counted from 0. After an `Err` nothing has changed.
    pub fn add_scope(&mut self, alloc: Global, names: &ScopeList) -> Result<u32, NoMemory>
        requires { length self.old.scopes < 2 ^ 32 }
        ensures number { IfOk result (λ number. number ≡ length self.old.scopes) }
        ensures added { OnOk result (self.new ≡ record self.old { scopes = self.old.scopes ++ names.now ∷ [] }) }
        ensures unchanged { OnErr result (self.new ≡ self.old) }
        ensures file_part { IsFilePart self.old → IsFilePart self.new }
    {
        let number = self.scopes.len();
        let scope = copy_scope(alloc, names)?;
        match self.scopes.push(scope) {
            Ok(()) => Ok(number as u32),
            Err(_) => Err(NoMemory),
        }
    }
}
