//! A list of functions.
ghost use Rattle.std.specs.Prelude.{◌≡◌, [], ◌∷◌, ◌++◌, length, map, take, OnOk, OnErr};
ghost use Rattle.brs_code.specs.Join.{moved};

use crate::Function;
use chan_values::NoMemory;
use std::alloc::Global;
use std::marker::Model;

/// Functions in order.
#[derive(Debug, Drop)]
pub struct FunctionList {
    functions: Vec<Function>,
}

impl Model for FunctionList {
    ghost use Rattle.std.specs.Prelude.{List};
    ghost use Rattle.brs_code.specs.declared.function.Function.{Function as Listed};

    ghost Value = { List Listed };

    ghost view = { λ l. l.functions.items };
}

impl FunctionList {
    /// No functions. Takes no memory.
    pub fn new(alloc: Global) -> FunctionList
        ensures { result ≡ [] }
    {
        FunctionList {
            functions: Vec::new(alloc),
        }
    }

    /// Adds a function at the end. After an `Err` nothing has changed.
    pub fn push(&mut self, function: Function) -> Result<(), NoMemory>
        ensures ok { OnOk result (self.new ≡ self.old ++ function ∷ []) }
        ensures err { OnErr result (self.new ≡ self.old) }
    {
        match self.functions.push(function) {
            Ok(()) => Ok(()),
            Err(_) => Err(NoMemory),
        }
    }

    /// How many functions there are. Takes no memory.
    pub fn len(&self) -> usize
        ensures { result ≡ length self.now }
    {
        self.functions.len()
    }

    /// The functions. Takes no memory.
    pub fn as_slice(&self) -> &[Function]
        ensures { result.now ≡ self.now }
    {
        self.functions.as_slice()
    }

    /// Makes the functions those of the file of this path, behind so many anonymous functions of other files. Takes no memory.
    pub(crate) fn move_behind(&mut self, path: u32, before: usize)
        ensures { self.new ≡ map (moved path before) self.old }
    {
        for function in self.functions.iter_mut() {
            function.path = path;
            function.first = before.saturating_add(function.first);
        }
    }

    /// Moves these functions to the end. After an `Err` nothing has changed.
    pub(crate) fn append(&mut self, more: FunctionList) -> Result<(), NoMemory>
        ensures ok { OnOk result (self.new ≡ self.old ++ more) }
        ensures err { OnErr result (self.new ≡ self.old) }
    {
        let FunctionList { mut functions } = more;
        match self.functions.append(&mut functions) {
            Ok(()) => Ok(()),
            Err(_) => Err(NoMemory),
        }
    }

    /// Drops the functions behind the first `len` ones. Takes no memory.
    pub(crate) fn truncate(&mut self, len: usize)
        ensures { self.new ≡ take len self.old }
    {
        self.functions.truncate(len);
    }
}
