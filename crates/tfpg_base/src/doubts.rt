//! Sets of monitors that may be wrong.

ghost use Rattle.std.specs.Prelude.{◌≡◌, ◌⊎◌, ◌<◌, ◌↔◌, [], ◌∷◌, ℕ, IsTrue, Contains, MatchOption, length};
ghost use Rattle.tfpg_base.specs.Set.{with_member, IsSubset};
ghost use Rattle.tfpg_base.specs.NodeSet.{IsNodeSet};
ghost use Rattle.tfpg_base.specs.declared.limits.TheConstants.{MAX_NODE_NUMBERS};

use crate::node_numbers::NodeNumbers;
use std::marker::Model;

/// A set of monitors that may be wrong, each by the number of its node, which is below
/// [`MAX_NODE_NUMBERS`](crate::MAX_NODE_NUMBERS). It takes no memory.
/// Contracts see it as the rising list of these numbers.
#[derive(Clone, Copy)]
pub struct Doubts {
    nodes: NodeNumbers,
}

impl Model for Doubts {
    ghost use Rattle.std.specs.Prelude.{ℕ, List, refl};

    ghost Value = { List ℕ };

    ghost view = { λ doubts. doubts.nodes };

    ghost inverse = { λ nodes. record { nodes = nodes } };

    ghost inverse_ok = { λ doubts fits. refl };
}

impl Doubts {
    /// The set without a monitor.
    pub fn empty() -> Doubts
        ensures { result ≡ [] }
    {
        Doubts {
            nodes: NodeNumbers::empty(),
        }
    }

    /// The set with the monitor of this node.
    pub fn with(self, node: u32) -> Doubts
        requires { node < MAX_NODE_NUMBERS }
        ensures list { result ≡ with_member node self }
        ensures members { (other : ℕ) → Contains result other ↔ ((node ≡ other) ⊎ Contains self other) }
        ensures set { IsNodeSet result }
    {
        Doubts {
            nodes: self.nodes.with(node),
        }
    }

    /// Whether the monitor of the node is in the set.
    pub fn has(self, node: u32) -> bool
        ensures member { IsTrue result ↔ Contains self node }
        ensures set { IsNodeSet self }
    {
        self.nodes.has(node)
    }

    /// The monitor of the least node, and the set of the others.
    pub fn split_first(self) -> Option<(u32, Doubts)>
        ensures { MatchOption result (self ≡ []) (λ parts. self ≡ parts.0 ∷ parts.1) }
    {
        let (node, nodes) = self.nodes.split_first()?;
        Some((node, Doubts { nodes }))
    }

    /// How many monitors there are.
    pub fn len(self) -> u32
        ensures count { result ≡ length self }
        ensures set { IsNodeSet self }
    {
        self.nodes.len()
    }

    /// Whether there is no monitor.
    pub fn is_empty(self) -> bool
        ensures { IsTrue result ↔ (self ≡ []) }
    {
        self.nodes.len() == 0
    }

    /// Whether both sets have the same monitors.
    pub(crate) fn is_same(self, other: Doubts) -> bool
        ensures { IsTrue result ↔ (self ≡ other) }
    {
        self.len() == other.len() && self.is_subset(other)
    }

    /// Whether each monitor is one of the other set.
    pub fn is_subset(self, of: Doubts) -> bool
        ensures { IsTrue result ↔ IsSubset self of }
    {
        self.nodes.is_subset(of.nodes)
    }
}
