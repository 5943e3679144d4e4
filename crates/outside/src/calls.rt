//! Which calls on a form in memory are to fail.
ghost use Rattle.std.specs.Prelude.{◌≡◌, ◌+◌, ◌-◌, ◌^◌, ◌↔◌, min, Contains, IsErr};
ghost use Rattle.outside.specs.Causes.{CountsFailure, Rises};

use crate::faults::Failed;

/// The calls of a form in memory.
#[derive(Debug, Drop)]
pub struct Calls {
    /// The numbers of the calls that are to fail, where the first call has number 0.
    pub failing: Vec<u64>,
    /// How many calls were made, at most 2^64 - 1.
    pub made: u64,
    /// How many of them failed, at most 2^64 - 1.
    pub faults: u64,
}

impl Calls {
    /// No call was made yet.
    pub fn new(failing: Vec<u64>) -> Calls
        ensures { result ≡ record { failing = failing; made = 0; faults = 0 } }
    {
        Calls {
            failing,
            made: 0,
            faults: 0,
        }
    }

    /// Counts a call, and fails exactly where it is to fail.
    pub(crate) fn begin(&mut self) -> Result<(), Failed>
        ensures fails { IsErr result ↔ Contains self.old.failing.items self.old.made }
        ensures made { self.new.made ≡ min (self.old.made + 1) (2 ^ 64 - 1) }
        ensures failing { self.new.failing ≡ self.old.failing }
        ensures cause { CountsFailure self.old.faults self.new.faults result }
    {
        let fails = self.failing.contains(&self.made);
        self.made = self.made.saturating_add(1);
        if fails { Err(self.fail()) } else { Ok(()) }
    }

    /// Counts a failure.
    pub(crate) fn fail(&mut self) -> Failed
        ensures rises { Rises self.old.faults self.new.faults }
        ensures made { self.new.made ≡ self.old.made }
        ensures failing { self.new.failing ≡ self.old.failing }
    {
        self.faults = self.faults.saturating_add(1);
        Failed
    }
}
