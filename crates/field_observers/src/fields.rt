//! The registrations of one node.
ghost use Rattle.std.specs.Prelude.{◌≡◌, ℕ, List, [], ◌∷◌, ◌++◌, OnOk, OnErr, IfOk, map, filter, if◌then◌else◌};
ghost use Rattle.std.specs.Str.{bytes_eq};
ghost use Rattle.field_observers.specs.Registered.{of_field, target_of};

use crate::observer_list::ObserverList;
use crate::target::{Registration, copy_target};
use chan_values::NoMemory;
use std::alloc::Global;
use std::collections::BTreeMap;
use std::marker::Model;

/// The registrations of the fields of one node, by folded name. Contracts see the list of its fields with what each has.
#[derive(Debug, Drop)]
pub struct NodeFields {
    fields: BTreeMap<Vec<u8>, Vec<Registration>>,
}

impl Model for NodeFields {
    ghost use Rattle.std.specs.Prelude.{ℕ, List, map};
    ghost use Rattle.field_observers.specs.declared.target.Registration.{Registration as One};

    ghost Value = { List (List ℕ × List One) };

    ghost view = { λ f. map (λ e. (e.0.items, e.1.items)) f.fields.entries };
}

/// Puts an item behind all others. After an `Err` nothing has changed.
fn put<T: Drop>(list: &mut Vec<T>, item: T) -> Result<(), NoMemory>
    ensures ok { OnOk result (list.new.items ≡ list.old.items ++ item ∷ []) }
    ensures err { OnErr result (list.new.items ≡ list.old.items) }
{
    match list.push(item) {
        Ok(()) => Ok(()),
        Err(_) => Err(NoMemory),
    }
}

fn keep_fixed(list: &mut Vec<Registration>)
    ensures { list.new.items ≡ filter (λ r. r.fixed) list.old.items }
{
    list.retain(|registration| registration.fixed);
}

fn targets_of(alloc: Global, registrations: &[Registration]) -> Result<ObserverList, NoMemory>
    ensures { IfOk result (λ list. list ≡ map target_of registrations.now) }
{
    let mut list = ObserverList::new(alloc);
    for registration in registrations {
        list.push(copy_target(alloc, &registration.target)?)?;
    }
    Ok(list)
}

impl NodeFields {
    /// No registrations. Takes no memory.
    pub fn new(alloc: Global) -> NodeFields
        ensures { (f : List ℕ) → of_field result f ≡ [] }
    {
        NodeFields {
            fields: BTreeMap::new(alloc),
        }
    }

    /// Adds a registration to the field of a folded name, behind its others. After an `Err` nothing has changed.
    pub fn add(
        &mut self,
        alloc: Global,
        name: Vec<u8>,
        registration: Registration,
    ) -> Result<(), NoMemory>
        ensures ok { OnOk result ((f : List ℕ) → of_field self.new f ≡ (if bytes_eq name.items f then of_field self.old f ++ registration ∷ [] else of_field self.old f)) }
        ensures err { OnErr result ((f : List ℕ) → of_field self.new f ≡ of_field self.old f) }
    {
        match self.fields.get_mut(name.as_slice()) {
            Some(list) => put(list, registration),
            None => self.start(alloc, name, registration),
        }
    }

    fn start(
        &mut self,
        alloc: Global,
        name: Vec<u8>,
        registration: Registration,
    ) -> Result<(), NoMemory>
        requires { of_field self.old name.items ≡ [] }
        ensures ok { OnOk result ((f : List ℕ) → of_field self.new f ≡ (if bytes_eq name.items f then of_field self.old f ++ registration ∷ [] else of_field self.old f)) }
        ensures err { OnErr result ((f : List ℕ) → of_field self.new f ≡ of_field self.old f) }
    {
        let mut list = Vec::new(alloc);
        put(&mut list, registration)?;
        match self.fields.insert(name, list) {
            Ok(_) => Ok(()),
            Err(_) => Err(NoMemory),
        }
    }

    /// Drops the registrations of the field of a folded name that aren't fixed. Takes no memory.
    pub fn remove(&mut self, name: &[u8])
        ensures { (f : List ℕ) → of_field self.new f ≡ (if bytes_eq name.now f then filter (λ r. r.fixed) (of_field self.old f) else of_field self.old f) }
    {
        if let Some(list) = self.fields.get_mut(name) {
            keep_fixed(list);
        }
    }

    /// The targets of the field of a folded name, in order of registration.
    pub fn targets(&self, alloc: Global, name: &[u8]) -> Result<ObserverList, NoMemory>
        ensures { IfOk result (λ list. list ≡ map target_of (of_field self.now name.now)) }
    {
        match self.fields.get(name) {
            Some(list) => targets_of(alloc, list.as_slice()),
            None => Ok(ObserverList::new(alloc)),
        }
    }
}
