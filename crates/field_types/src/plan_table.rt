//! The plans of all kinds of a channel.
ghost use Rattle.std.specs.Prelude.{◌≡◌, ◌↔◌, [], ◌∷◌, ◌++◌, length, slice_get, IsTrue, OnOk, OnErr};
ghost use Rattle.std.specs.Option.{option_copied};
ghost use Rattle.field_types.specs.Plans.{IsNext, IsPlanTable};

use crate::KindPlan;
use chan_values::NoMemory;
use std::alloc::Global;
use std::marker::Model;

/// The plans of all kinds, each behind the plans of its base and of the kinds of its child elements. The kind Node
/// stands first, at place 0.
///
/// Source: SceneGraph XML Guide, "component".
#[derive(Drop)]
pub struct PlanTable {
    plans: Vec<KindPlan>,
}

impl Model for PlanTable {
    ghost use Rattle.std.specs.Prelude.{List};
    ghost use Rattle.field_types.specs.declared.plans.KindPlan.{KindPlan as Plan};
    ghost use Rattle.std.specs.Coded.{coded_list};
    ghost use Rattle.field_types.specs.contracts.plans.KindPlan as k;

    ghost Value = { List Plan };

    ghost coded = { coded_list k.the_row.coded };

    ghost use Rattle.field_types.specs.Plans.{IsPlanTable};

    ghost view = { λ t. t.plans.items };

    ghost invariant = { λ t. IsPlanTable t.plans.items };
}

impl PlanTable {
    /// No plans. Takes no memory.
    pub fn new(alloc: Global) -> PlanTable
        ensures { result ≡ [] }
    {
        PlanTable {
            plans: Vec::new(alloc),
        }
    }

    /// Adds a plan at the end. After an `Err` nothing has changed.
    pub fn push(&mut self, plan: KindPlan) -> Result<(), NoMemory>
        requires { IsNext self.old plan }
        ensures ok { OnOk result (self.new ≡ self.old ++ plan ∷ []) }
        ensures err { OnErr result (self.new ≡ self.old) }
    {
        match self.plans.push(plan) {
            Ok(()) => Ok(()),
            Err(_) => Err(NoMemory),
        }
    }

    /// How many plans there are. Takes no memory.
    pub fn len(&self) -> usize
        ensures { result ≡ length self.now }
    {
        self.plans.len()
    }

    /// Whether there is no plan. Takes no memory.
    pub fn is_empty(&self) -> bool
        ensures { IsTrue result ↔ (self.now ≡ []) }
    {
        self.plans.is_empty()
    }

    /// The plan at a place, counted from 0, `None` exactly past the end. Takes no memory.
    pub fn get(&self, at: usize) -> Option<&KindPlan>
        ensures value { option_copied result ≡ slice_get self.now at }
        ensures table { IsPlanTable self.now }
    {
        self.plans.get(at)
    }
}
