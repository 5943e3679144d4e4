//! All registrations of a run.
ghost use Rattle.std.specs.Prelude.{◌≡◌, ℕ, List, [], ◌∷◌, ◌≤◌, length, map, OnOk, OnErr, IfOk};
ghost use Rattle.chan_values.specs.Folded.{folded};
ghost use Rattle.field_observers.specs.Registered.{registrations_of, registered, unregistered, target_of, nothing_registered};
ghost use Rattle.field_observers.specs.declared.target.Registration.{Registration as One};

use crate::fields::NodeFields;
use crate::names::{fold_into, folded_name};
use crate::observer_list::ObserverList;
use crate::target::{Registration, Target};
use chan_values::NoMemory;
use std::alloc::Global;
use std::collections::BTreeMap;
use std::marker::Model;

/// The observers of all fields of all nodes. Contracts see what each node and field has, in order of registration
/// (`registrations_of`). The name of a field may be any bytes, and is the same name where its ASCII letters have another
/// case.
///
/// Source: SceneGraph, "ifSGNodeField", observeField() and unobserveField().
#[derive(Debug, Drop)]
pub struct Observers {
    alloc: Global,
    nodes: Nodes,
    /// As long as the longest name that was registered, so that a name is folded without taking memory.
    room: Vec<u8>,
}

impl Model for Observers {
    ghost use Rattle.std.specs.Prelude.{ℕ, List, ◌≡◌, ◌<◌, [], length};
    ghost use Rattle.field_observers.specs.declared.target.Registration.{Registration as One};
    ghost use Rattle.field_observers.specs.Registered.{registrations_of};

    ghost Value = { List (ℕ × List (List ℕ × List One)) };

    ghost view = { λ o. o.nodes.entries };

    ghost invariant = { λ o. (node : ℕ) (field : List ℕ) → length o.room.items < length field → registrations_of o.nodes.entries node field ≡ [] };
}

type Nodes = BTreeMap<u32, NodeFields>;

/// Makes a room at least so long. It never gets shorter.
fn grow(room: &mut Vec<u8>, size: usize) -> Result<(), NoMemory>
    ensures ok { OnOk result (size ≤ length room.new.items) }
    ensures kept { length room.old.items ≤ length room.new.items }
{
    if room.len() >= size {
        return Ok(());
    }
    match room.resize(size, 0) {
        Ok(()) => Ok(()),
        Err(_) => Err(NoMemory),
    }
}

fn register(
    alloc: Global,
    nodes: &mut Nodes,
    node: u32,
    name: Vec<u8>,
    registration: Registration,
) -> Result<(), NoMemory>
    ensures ok { OnOk result ((n : ℕ) (f : List ℕ) → registrations_of nodes.new.entries n f ≡
        registered node name.items registration (registrations_of nodes.old.entries) n f) }
    ensures err { OnErr result ((n : ℕ) (f : List ℕ) → registrations_of nodes.new.entries n f ≡ registrations_of nodes.old.entries n f) }
{
    match nodes.get_mut(&node) {
        Some(fields) => fields.add(alloc, name, registration),
        None => start(alloc, nodes, node, name, registration),
    }
}

fn start(
    alloc: Global,
    nodes: &mut Nodes,
    node: u32,
    name: Vec<u8>,
    registration: Registration,
) -> Result<(), NoMemory>
    requires { (f : List ℕ) → registrations_of nodes.old.entries node f ≡ [] }
    ensures ok { OnOk result ((n : ℕ) (f : List ℕ) → registrations_of nodes.new.entries n f ≡
        registered node name.items registration (registrations_of nodes.old.entries) n f) }
    ensures err { OnErr result ((n : ℕ) (f : List ℕ) → registrations_of nodes.new.entries n f ≡ registrations_of nodes.old.entries n f) }
{
    let mut fields = NodeFields::new(alloc);
    fields.add(alloc, name, registration)?;
    match nodes.insert(node, fields) {
        Ok(_) => Ok(()),
        Err(_) => Err(NoMemory),
    }
}

/// Drops what isn't fixed at the field of a folded name.
fn unregister(nodes: &mut Nodes, node: u32, name: &[u8])
    ensures { (n : ℕ) (f : List ℕ) → registrations_of nodes.new.entries n f ≡
        unregistered node name.now (registrations_of nodes.old.entries) n f }
{
    if let Some(fields) = nodes.get_mut(&node) {
        fields.remove(name);
    }
}

impl Observers {
    /// No registrations. Takes no memory.
    pub fn new(alloc: Global) -> Observers
        ensures { (n : ℕ) (f : List ℕ) → registrations_of result n f ≡ nothing_registered n f }
    {
        Observers {
            alloc,
            nodes: BTreeMap::new(alloc),
            room: Vec::new(alloc),
        }
    }

    /// Registers a target at a field of a node, behind the others of that field. A fixed one stays for good. After an
    /// `Err` nothing has changed.
    pub fn add(&mut self, node: u32, field: &[u8], to: Target, fixed: bool) -> Result<(), NoMemory>
        ensures ok { OnOk result ((n : ℕ) (f : List ℕ) → registrations_of self.new n f ≡
            registered node (folded field.now) (record { target = to; fixed = fixed }) (registrations_of self.old) n f) }
        ensures err { OnErr result ((n : ℕ) (f : List ℕ) → registrations_of self.new n f ≡ registrations_of self.old n f) }
    {
        let registration = Registration { target: to, fixed };
        let name = folded_name(self.alloc, field)?;
        grow(&mut self.room, field.len())?;
        register(self.alloc, &mut self.nodes, node, name, registration)
    }

    /// Drops the registrations of a field of a node that aren't fixed. The others of that field keep their order, and those
    /// of other fields stay. Takes no memory.
    pub fn remove(&mut self, node: u32, field: &[u8])
        ensures { (n : ℕ) (f : List ℕ) → registrations_of self.new n f ≡
            unregistered node (folded field.now) (registrations_of self.old) n f }
    {
        if field.len() > self.room.len() {
            return;
        }
        fold_into(field, &mut self.room);
        unregister(&mut self.nodes, node, &self.room[..field.len()]);
    }

    /// The targets of a field of a node, in order of registration.
    pub fn snapshot(&self, node: u32, field: &[u8]) -> Result<ObserverList, NoMemory>
        ensures { IfOk result (λ list. list ≡ map target_of (registrations_of self.now node (folded field.now))) }
    {
        let name = folded_name(self.alloc, field)?;
        match self.nodes.get(&node) {
            Some(fields) => fields.targets(self.alloc, name.as_slice()),
            None => Ok(ObserverList::new(self.alloc)),
        }
    }
}
