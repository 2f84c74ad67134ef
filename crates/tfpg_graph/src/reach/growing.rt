//! What a set reaches with one failure mode more.

ghost use Rattle.std.specs.Prelude.{◌<◌, ◌≤◌, ◌+◌, [], ◌∷◌, ℕ, List, All, length};
ghost use Rattle.tfpg_base.specs.Set.{with_member};
ghost use Rattle.tfpg_graph.specs.Graph.{failures};
ghost use Rattle.tfpg_graph.specs.Onward.{AreOnward};
ghost use Rattle.tfpg_graph.specs.Reach.{IsReach};
ghost use Rattle.tfpg_graph.specs.inside.reach.Reaching.{IsFullBut, Widens};

use crate::graph::Graph;
use crate::reach::{NodeSet, Onward};

impl Graph {
    /// The nodes that a set of failure modes reaches with the one at this position besides, by those that it reaches without.
    ///
    /// A search from the node of that failure mode, along the edges of the graph, adds each node that is reached now. It goes once over the
    /// edges from each node that is new, and for each of them over those into its target. Takes no memory.
    pub fn reach_with(&self, onward: &Onward, known: &NodeSet, position: u32) -> NodeSet
        requires onward { AreOnward (length self.now.nodes) self.now.edges onward.now }
        requires position { position < length (failures self.now) }
        ensures { (set : List ℕ) → IsReach self.now set known.now → IsReach self.now (with_member position set) result }
    {
        self.is_always_valid();
        let node = self.failure_node(position);
        let mut reached = known.with(node);
        let mut pending = NodeSet::empty().with(node);
        while let Some(parts) = pending.split_first() {
            pending = self.spread(onward, &mut reached, parts.0, parts.1);
        }
        reached
    }

    /// Goes over the edges from the node, and adds each target that is fed. Returns what is pending with these targets: the nodes that are
    /// still to be gone on from.
    fn spread(&self, onward: &Onward, reached: &mut NodeSet, node: u32, pending: NodeSet) -> NodeSet
        requires onward { AreOnward (length self.now.nodes) self.now.edges onward.now }
        requires node { node < length self.now.nodes }
        ensures widens { Widens self.now reached.old reached.new }
        ensures full { IsFullBut self.now onward.now [] (node ∷ pending) reached.old → IsFullBut self.now onward.now [] result reached.new }
        ensures within { All (λ next. next < length self.now.nodes) pending → All (λ next. next < length self.now.nodes) result }
        // What is new is pending, and nothing else is.
        ensures shorter { length result + length reached.old ≤ length pending + length reached.new }
    {
        self.is_always_valid();
        let mut left = pending;
        for next in onward.row(node) {
            if self.add_if_fed(reached, *next) {
                left = left.with(*next);
            }
        }
        left
    }
}
