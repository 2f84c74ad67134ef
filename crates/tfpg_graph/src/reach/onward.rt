//! Where the edges of a graph lead, from each node.

ghost use Rattle.std.specs.Prelude.{length, IfOk};
ghost use Rattle.tfpg_graph.specs.Onward.{AreOnward};

use crate::graph::Graph;
use crate::node_steps::NodeSteps;
use std::alloc::Global;
use std::marker::Model;
use tfpg_base::NoMemory;

/// For each node of a graph the nodes to which an edge leads from it. Contracts see the list of these lists.
#[derive(Drop)]
pub struct Onward {
    steps: NodeSteps,
}

impl Model for Onward {
    ghost use Rattle.std.specs.Prelude.{ℕ, List};

    ghost Value = { List (List ℕ) };

    ghost view = { λ onward. onward.steps };
}

impl Onward {
    ghost use Rattle.std.specs.Prelude.{◌≡◌, ◌<◌, All};
    ghost use Rattle.tfpg_graph.specs.inside.zero_cycle.ZeroSearch.{row};

    /// The nodes to which an edge leads from the node.
    pub(crate) fn row(&self, node: u32) -> &[u32]
        requires { node < length self.now }
        ensures row { result.now ≡ row self.now node }
        ensures within { All (λ next. next < length self.now) result.now }
    {
        self.steps.row(node)
    }
}

impl Graph {
    /// Where its edges lead, by which [`Graph::reach_with`] finds its way. Takes time and memory in the numbers of nodes and edges.
    pub fn onward(&self, alloc: Global) -> Result<Onward, NoMemory>
        ensures { IfOk result (AreOnward (length self.now.nodes) self.now.edges) }
    {
        self.is_always_valid();
        let mut steps = NodeSteps::none(alloc, self.node_count())?;
        for number in 0..self.edge_count() {
            let edge = self.edge(number);
            steps = steps.with_step(edge.source, edge.target)?;
        }
        Ok(Onward { steps })
    }
}
