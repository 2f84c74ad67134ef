//! Sets of the nodes of a graph.

ghost use Rattle.std.specs.Prelude.{◌≡◌, ◌<◌, ◌↔◌, [], ◌∷◌, IsTrue, Contains, MatchOption};
ghost use Rattle.tfpg_base.specs.Set.{with_member};
ghost use Rattle.tfpg_base.specs.NodeSet.{IsNodeSet};

use crate::limits::MAX_NODES;
use std::marker::Model;
use tfpg_base::NodeNumbers;

/// A set of nodes, each by its number, which is below [`MAX_NODES`]. It takes no memory.
/// Contracts see it as the rising list of these numbers.
#[derive(Clone, Copy)]
pub struct NodeSet {
    nodes: NodeNumbers,
}

impl Model for NodeSet {
    ghost use Rattle.std.specs.Prelude.{ℕ, List, refl};

    ghost Value = { List ℕ };

    ghost view = { λ set. set.nodes };

    ghost inverse = { λ nodes. record { nodes = nodes } };

    ghost inverse_ok = { λ set fits. refl };
}

impl NodeSet {
    /// The set without a node.
    pub(crate) fn empty() -> NodeSet
        ensures { result ≡ [] }
    {
        NodeSet {
            nodes: NodeNumbers::empty(),
        }
    }

    /// The set with this node.
    pub(crate) fn with(self, node: u32) -> NodeSet
        requires { node < MAX_NODES }
        ensures nodes { result ≡ with_member node self }
        ensures set { IsNodeSet result }
    {
        NodeSet {
            nodes: self.nodes.with(node),
        }
    }

    /// The least node, and the set of the others.
    pub(crate) fn split_first(self) -> Option<(u32, NodeSet)>
        ensures { MatchOption result (self ≡ []) (λ parts. self ≡ parts.0 ∷ parts.1) }
    {
        let (node, nodes) = self.nodes.split_first()?;
        Some((node, NodeSet { nodes }))
    }

    /// Whether the node is in the set. A number from [`MAX_NODES`] on is in none.
    pub fn has(&self, node: u32) -> bool
        ensures node { IsTrue result ↔ Contains self.now node }
        ensures set { IsNodeSet self.now }
    {
        self.nodes.has(node)
    }
}
