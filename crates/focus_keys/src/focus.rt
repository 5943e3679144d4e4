//! Which node has the focus.
ghost use Rattle.std.specs.Prelude.{◌≡◌, IfOk, None};
ghost use Rattle.std.specs.Option.{ForSome};
ghost use Rattle.node_tree.specs.Nodes.{IsNode};
ghost use Rattle.focus_keys.specs.Chain.{focus_chain, after_set};

use crate::chain_list::ChainList;
use chan_values::NoMemory;
use node_tree::Nodes;
use std::alloc::Global;
use std::marker::Model;

/// The focus of a run, which one node has or none.
///
/// Source: SceneGraph, "ifSGNodeFocus".
#[derive(Debug, Drop)]
pub struct Focus {
    node: Option<u32>,
}

impl Model for Focus {
    ghost use Rattle.std.specs.Prelude.{ℕ, Option};

    ghost Value = { Option ℕ };

    ghost view = { λ f. f.node };
}

impl Focus {
    /// A focus that no node has. Takes no memory.
    pub fn new() -> Focus
        ensures { result ≡ None }
    {
        Focus { node: None }
    }

    /// Gives the focus to a node, or takes it from that node if it has it. Takes no memory.
    ///
    /// Source: SceneGraph, "ifSGNodeFocus", setFocus().
    pub fn set(&mut self, node: u32, on: bool)
        ensures { self.new ≡ after_set self.old node on }
    {
        if on {
            self.node = Some(node);
        } else if self.node == Some(node) {
            self.node = None;
        }
    }

    /// The node that has the focus, `None` exactly where none has. Takes no memory.
    pub fn focused(&self) -> Option<u32>
        ensures { result ≡ self.now }
    {
        self.node
    }

    /// The focused node and its ancestors, upward: the nodes that a key visits.
    ///
    /// Source: SceneGraph, "Handling key events".
    pub fn chain(&self, alloc: Global, nodes: &Nodes) -> Result<ChainList, NoMemory>
        requires { ForSome self.now (IsNode nodes.now) }
        ensures { IfOk result (λ chain. chain ≡ focus_chain nodes.now self.now) }
    {
        let mut chain = ChainList::new(alloc);
        let mut next = self.node;
        let mut left = nodes.count();
        while left > 0 {
            let Some(node) = next else {
                return Ok(chain);
            };
            chain.push(node)?;
            next = nodes.parent(node);
            left -= 1;
        }
        Ok(chain)
    }
}
