//! The making of a node with all below it.
ghost use Rattle.std.specs.Prelude.{◌≡◌, ◌↔◌, ℕ, ◌+◌, ◌<◌, ◌≤◌, suc, List, [], ◌∷◌, ◌++◌, length, map, reverse, None, Err, IfOk, OnOk, OnErr};
ghost use Rattle.field_types.specs.declared.plans.KindPlan.{KindPlan as Plan};
ghost use Rattle.field_types.specs.Plans.{elements_of};
ghost use Rattle.node_tree.specs.Subtree.{of_elements};
ghost use Rattle.node_tree.specs.Making.{new_node, kind_subtree, made_count, numbered, made};
ghost use Rattle.node_tree.specs.Pending.{works, gives, work_of, to_make, finished, HaveParents};

use crate::answers::MakeFault;
use crate::making::new_node;
use crate::node::Node;
use crate::nodes::{MAX_NODES, Nodes};
use chan_values::NoMemory;
use field_types::{ChildPlan, PlanTable};
use std::alloc::Global;

/// A child element whose node is still to be made.
#[derive(Clone, Copy)]
pub struct PendingElement<'a> {
    pub element: &'a ChildPlan,
    /// The place of its parent among the nodes of the making, counted from 0.
    pub parent: usize,
}

/// Adds elements to those whose nodes are still to be made, the first one at the end. After an `Err` some may be there.
fn push_elements<'a>(
    pending: &mut Vec<PendingElement<'a>>,
    elements: &'a [ChildPlan],
    parent: usize,
) -> Result<(), NoMemory>
    ensures { OnOk result ((plans : List Plan) → to_make plans pending.new.items ≡ works parent (of_elements (gives plans) (elements_of elements.now)) ++ to_make plans pending.old.items) }
{
    for element in elements.iter().rev() {
        let Ok(()) = pending.push(PendingElement { element, parent }) else {
            return Err(NoMemory);
        };
    }
    Ok(())
}

/// Adds the elements of a kind and of the kinds that it extends, those of the first base at the end.
fn push_kind<'a>(
    pending: &mut Vec<PendingElement<'a>>,
    plans: &'a PlanTable,
    place: u32,
    parent: usize,
) -> Result<(), NoMemory>
    ensures { OnOk result (to_make plans.now pending.new.items ≡ works parent (gives plans.now place) ++ to_make plans.now pending.old.items) }
{
    let mut next = Some(place);
    while let Some(here) = next {
        let Some(plan) = plans.get(here as usize) else {
            return Ok(());
        };
        push_elements(pending, plan.children.as_slice(), parent)?;
        next = plan.base;
    }
    Ok(())
}

/// Makes the node of an element, and adds the elements whose nodes stand below it to those that are still to be made.
fn make_element<'a>(
    alloc: Global,
    plans: &'a PlanTable,
    owner: u32,
    first: u32,
    nodes: &mut Vec<Node>,
    pending: &mut Vec<PendingElement<'a>>,
    next: PendingElement<'a>,
) -> Result<(), NoMemory>
    requires parents { HaveParents nodes.old.items (work_of plans.now next ∷ to_make plans.now pending.old.items) }
    requires room { first + length nodes.old.items ≤ 1048576 }
    ensures one { OnOk result (length nodes.new.items ≡ suc (length nodes.old.items)) }
    ensures rest { OnOk result (finished plans.now owner first nodes.new.items (to_make plans.now pending.new.items) ≡ finished plans.now owner first nodes.old.items (work_of plans.now next.entry ∷ to_make plans.now pending.old.items)) }
    ensures parents { OnOk result (HaveParents nodes.new.items (to_make plans.now pending.new.items)) }
{
    let at = nodes.len();
    let number = first + at as u32;
    let parent = first + next.parent as u32;
    let element = next.element;
    let node = new_node(
        alloc,
        plans,
        element.place,
        element.values.as_slice(),
        owner,
        Some(parent),
    )?;
    nodes[next.parent].children.push(number)?;
    let Ok(()) = nodes.push(node) else {
        return Err(NoMemory);
    };
    push_elements(pending, element.children.as_slice(), at)?;
    push_kind(pending, plans, element.place, at)?;
    Ok(())
}

/// The nodes of one making, numbered from `first` on.
fn make_nodes(
    alloc: Global,
    plans: &PlanTable,
    place: u32,
    owner: u32,
    first: u32,
) -> Result<Vec<Node>, NoMemory>
    requires { first + made_count plans.now place ≤ 1048577 }
    ensures { IfOk result (λ nodes. nodes.items ≡ numbered plans.now owner None first (kind_subtree plans.now place)) }
{
    let mut nodes = Vec::new(alloc);
    let root = new_node(alloc, plans, place, &[], owner, None)?;
    let Ok(()) = nodes.push(root) else {
        return Err(NoMemory);
    };
    let mut pending = Vec::new(alloc);
    push_kind(&mut pending, plans, place, 0)?;
    while let Some(next) = pending.pop() {
        make_element(alloc, plans, owner, first, &mut nodes, &mut pending, next)?;
    }
    Ok(nodes)
}

impl Nodes {
    /// The nodes of a run that begins: node 1, the global node, of the kind Node, which belongs to render.
    ///
    /// Source: SceneGraph Reference, "roSGScreen", "getGlobalNode".
    pub fn new(alloc: Global, plans: &PlanTable) -> Result<Nodes, NoMemory>
        requires { 0 < length plans.now }
        ensures { IfOk result (λ nodes. nodes ≡ new_node plans.now 0 0 ∷ []) }
    {
        let mut nodes = Vec::new(alloc);
        match nodes.push(new_node(alloc, plans, 0, &[], 0, None)?) {
            Ok(()) => Ok(Nodes {
                alloc,
                nodes,
                closed: true,
            }),
            Err(_) => Err(NoMemory),
        }
    }

    /// Makes a node of a kind with all nodes below it, and answers its number. The nodes are numbered in preorder: the children
    /// that the kind's base gives come first, then those of the kind's own elements; the children that the kind of a child
    /// element gives come before the elements in it. A field that an attribute names begins with what it says. `TooManyNodes` comes exactly where there would
    /// be more than `MAX_NODES` nodes. After an `Err` nothing has changed.
    ///
    /// Source: SceneGraph Reference, "roSGNode", and SceneGraph XML Guide, "children".
    pub fn make(&mut self, plans: &PlanTable, place: u32, owner: u32) -> Result<u32, MakeFault>
        requires { place < length plans.now }
        ensures after { OnOk result (self.new ≡ made self.old plans.now place owner) }
        ensures number { IfOk result (λ n. n ≡ suc (length self.old)) }
        ensures err { OnErr result (self.new ≡ self.old) }
        ensures full { result ≡ Err MakeFault.TooManyNodes ↔ (1048576 < length self.old + made_count plans.now place) }
    {
        let Some(plan) = plans.get(place as usize) else {
            unreachable!()
        };
        let count = self.count();
        if plan.nodes > MAX_NODES - count {
            return Err(MakeFault::TooManyNodes);
        }
        let number = count + 1;
        let Ok(mut nodes) = make_nodes(self.alloc, plans, place, owner, number) else {
            return Err(MakeFault::NoMemory);
        };
        match self.nodes.append(&mut nodes) {
            Ok(()) => Ok(number),
            Err(_) => Err(MakeFault::NoMemory),
        }
    }
}
