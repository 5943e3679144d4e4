//! Parents and children: how a node gets another parent.
ghost use Rattle.std.specs.Prelude.{◌≡◌, ◌&&◌, false, Some, IfOk, OnOk, OnErr, IsTrue};
ghost use Rattle.node_tree.specs.Closed.{are_alike};
ghost use Rattle.node_tree.specs.Nodes.{IsNode, children_of, parent_of, with_node, with_children, with_parent};
ghost use Rattle.node_tree.specs.Family.{has, without, with_child, ancestry, left, standing, can_stand, moved, appended, can_insert, inserted, is_child, removed, IsSound};

use crate::children::Place;
use crate::node::Node;
use crate::nodes::Nodes;
use chan_values::NoMemory;

/// Takes a child out of the children of a node.
fn take_out(nodes: &mut Vec<Node>, node: u32, child: u32)
    requires { IsNode nodes.old.items node }
    ensures { nodes.new.items ≡ with_node (with_children (without child)) nodes.old.items node }
{
    nodes[node as usize - 1].children.remove(child);
}

/// Puts a child at a place among the children of a node. After an `Err` nothing has changed.
fn put_in(nodes: &mut Vec<Node>, place: Place, node: u32, child: u32) -> Result<(), NoMemory>
    requires { IsNode nodes.old.items node }
    ensures ok { OnOk result (nodes.new.items ≡ with_node (with_children (with_child place child)) nodes.old.items node) }
    ensures err { OnErr result (nodes.new.items ≡ nodes.old.items) }
{
    nodes[node as usize - 1].children.insert(place, child)
}

/// Gives a child another place among the children of its parent.
fn put_again(nodes: &mut Vec<Node>, place: Place, node: u32, child: u32)
    requires node { IsNode nodes.old.items node }
    requires child { IsTrue (has child (children_of nodes.old.items node)) }
    ensures { nodes.new.items ≡ with_node (λ x. with_children (with_child place child) (with_children (without child) x)) nodes.old.items node }
{
    nodes[node as usize - 1].children.put_again(place, child);
}

/// Takes a child out of the children of its parent, and puts it at a place among those of a node. The places come first that may take
/// memory, so that after an `Err` nothing has changed.
fn change_children(
    nodes: &mut Vec<Node>,
    place: Place,
    parent: Option<u32>,
    node: u32,
    child: u32,
) -> Result<(), NoMemory>
    requires sound { IsSound nodes.old.items }
    requires parent { parent ≡ parent_of nodes.old.items child }
    requires node { IsNode nodes.old.items node }
    ensures ok { OnOk result (nodes.new.items ≡ with_node (with_children (with_child place child)) (left nodes.old.items child) node) }
    ensures err { OnErr result (nodes.new.items ≡ nodes.old.items) }
{
    let Some(parent) = parent else {
        return put_in(nodes, place, node, child);
    };
    if parent == node {
        put_again(nodes, place, node, child);
        return Ok(());
    }
    put_in(nodes, place, node, child)?;
    take_out(nodes, parent, child);
    Ok(())
}

/// Gives a node a parent, or none.
fn set_parent(nodes: &mut Vec<Node>, node: u32, parent: Option<u32>)
    requires { IsNode nodes.old.items node }
    ensures { nodes.new.items ≡ with_node (with_parent parent) nodes.old.items node }
{
    nodes[node as usize - 1].parent = parent;
}

/// Whether both owners are render, or neither.
fn are_alike(one: u32, other: u32) -> bool
    ensures { result ≡ are_alike one other }
{
    if one == 0 { other == 0 } else { other != 0 }
}

/// Whether links from nodes of render are known to lead to nodes of render alone, once nodes of these owners are parent and child.
fn stays_closed(closed: bool, one: u32, other: u32) -> bool
    ensures { result ≡ (closed && are_alike one other) }
{
    closed && are_alike(one, other)
}

impl Nodes {
    /// Whether a node is another or one of its ancestors.
    fn is_above(&self, above: u32, node: u32) -> bool
        requires { IsNode self.now node }
        ensures { result ≡ has above (ancestry self.now node) }
    {
        let mut next = Some(node);
        for _ in 0..self.nodes.len() {
            let Some(here) = next else { return false };
            if here == above {
                return true;
            }
            next = self.parent(here);
        }
        false
    }

    /// Makes a node the child of another, at a place. The child first leaves its parent. After an `Err` nothing has changed.
    fn stand(&mut self, place: Place, node: u32, child: u32) -> Result<(), NoMemory>
        requires node { IsNode self.old node }
        requires child { IsNode self.old child }
        requires clear { has child (ancestry self.old node) ≡ false }
        ensures ok { OnOk result (self.new ≡ standing place (left self.old child) node child) }
        ensures err { OnErr result (self.new ≡ self.old) }
    {
        let parent = self.parent(child);
        let closed = stays_closed(self.closed, self.owner(node), self.owner(child));
        change_children(&mut self.nodes, place, parent, node, child)?;
        set_parent(&mut self.nodes, child, Some(node));
        self.closed = closed;
        Ok(())
    }

    /// Makes a node the child of another at a place, and answers whether it did: false exactly where the child is that node or one
    /// of its ancestors. The child first leaves its parent. After an `Err` nothing has changed.
    fn place_child(&mut self, place: Place, node: u32, child: u32) -> Result<bool, NoMemory>
        requires node { IsNode self.old node }
        requires child { IsNode self.old child }
        ensures answer { IfOk result (λ done. done ≡ can_stand self.old node child) }
        ensures after { OnOk result (self.new ≡ moved place self.old node child) }
        ensures err { OnErr result (self.new ≡ self.old) }
    {
        if self.is_above(child, node) {
            return Ok(false);
        }
        self.stand(place, node, child)?;
        Ok(true)
    }

    /// Makes a node the last child of another, and answers whether it did: false exactly where the child is that node or one of
    /// its ancestors. The child first leaves its parent. After an `Err` nothing has changed.
    ///
    /// Source: SceneGraph Reference, "ifSGNodeChildren", "appendChild".
    pub fn append_child(&mut self, node: u32, child: u32) -> Result<bool, NoMemory>
        requires node { IsNode self.old node }
        requires child { IsNode self.old child }
        ensures answer { IfOk result (λ done. done ≡ can_stand self.old node child) }
        ensures after { OnOk result (self.new ≡ appended self.old node child) }
        ensures err { OnErr result (self.new ≡ self.old) }
    {
        self.place_child(Place::Last, node, child)
    }

    /// Makes a node the child of another at a place, counted from 0 once the child has left its parent, or last where there are fewer
    /// children. Answers whether it did: false exactly where the place is below 0 or the child is that node or one of its ancestors. After
    /// an `Err` nothing has changed.
    ///
    /// Source: SceneGraph Reference, "ifSGNodeChildren", "insertChild".
    pub fn insert_child(&mut self, node: u32, child: u32, at: i64) -> Result<bool, NoMemory>
        requires node { IsNode self.old node }
        requires child { IsNode self.old child }
        ensures answer { IfOk result (λ done. done ≡ can_insert self.old node child at) }
        ensures after { OnOk result (self.new ≡ inserted self.old node child at) }
        ensures err { OnErr result (self.new ≡ self.old) }
    {
        let Ok(at) = usize::try_from(at) else {
            return Ok(false);
        };
        self.place_child(Place::At(at), node, child)
    }

    /// Takes a child from a node, and answers whether it did: false exactly where it is no child of that node. Takes no memory.
    ///
    /// Source: SceneGraph Reference, "ifSGNodeChildren", "removeChild".
    pub fn remove_child(&mut self, node: u32, child: u32) -> bool
        requires node { IsNode self.old node }
        requires child { IsNode self.old child }
        ensures answer { result ≡ is_child self.old node child }
        ensures after { self.new ≡ removed self.old node child }
    {
        if !self.node(node).children.has(child) {
            return false;
        }
        take_out(&mut self.nodes, node, child);
        set_parent(&mut self.nodes, child, None);
        true
    }
}
