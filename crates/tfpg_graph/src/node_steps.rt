//! Steps from node to node.

ghost use Rattle.std.specs.Prelude.{◌≡◌, ◌<◌, [], length, replicate, All, IfOk};
ghost use Rattle.tfpg_graph.specs.inside.zero_cycle.ZeroSearch.{row, with_step};

use std::alloc::Global;
use std::marker::Model;
use tfpg_base::NoMemory;

/// For each node the nodes to which one step leads. Contracts see the list of these lists.
#[derive(Drop)]
pub(crate) struct NodeSteps {
    rows: Vec<Vec<u32>>,
}

impl Model for NodeSteps {
    ghost use Rattle.std.specs.Prelude.{ℕ, List, map};
    ghost use Rattle.tfpg_graph.specs.inside.zero_cycle.ZeroSearch.{AreStepsWithin};

    ghost Value = { List (List ℕ) };

    ghost view = { λ steps. map (λ row. row.items) steps.rows.items };

    ghost invariant = { λ steps. AreStepsWithin (map (λ row. row.items) steps.rows.items) };
}

impl NodeSteps {
    /// No step between this many nodes.
    pub(crate) fn none(alloc: Global, count: u32) -> Result<NodeSteps, NoMemory>
        ensures { IfOk result (λ steps. steps ≡ replicate count []) }
    {
        let mut rows = Vec::new(alloc);
        for _ in 0..count {
            rows.push(Vec::new(alloc))?;
        }
        Ok(NodeSteps { rows })
    }

    /// The steps with one more.
    pub(crate) fn with_step(self, from: u32, to: u32) -> Result<NodeSteps, NoMemory>
        requires from { from < length self }
        requires to { to < length self }
        ensures { IfOk result (λ steps. steps ≡ with_step self from to) }
    {
        let mut steps = self;
        steps.rows[from as usize].push(to)?;
        Ok(steps)
    }

    /// The nodes to which one step leads from the node.
    pub(crate) fn row(&self, node: u32) -> &[u32]
        requires { node < length self.now }
        ensures row { result.now ≡ row self.now node }
        ensures within { All (λ next. next < length self.now) result.now }
    {
        self.rows[node as usize].as_slice()
    }
}
