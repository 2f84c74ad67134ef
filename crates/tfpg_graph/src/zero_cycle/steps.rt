//! The steps from node to node along edges that may take no time.

ghost use Rattle.std.specs.Prelude.{◌≡◌, ◌<◌, length, All, IfOk};
ghost use Rattle.tfpg_graph.specs.Valid.{IsValidEdge};

use crate::declared::Declared;
use crate::edge::Edge;
use crate::node_steps::NodeSteps;
use std::alloc::Global;
use tfpg_base::NoMemory;

impl NodeSteps {
    ghost use Rattle.tfpg_graph.specs.inside.zero_cycle.ZeroEdges.{AreZeroSteps, AddsZeroStep};

    /// The steps along all edges that may take no time, from source to target or, reversed, from target to source.
    /// Takes time and memory in the numbers of nodes and edges.
    pub(crate) fn of_edges(
        alloc: Global,
        declared: &Declared,
        reversed: bool,
    ) -> Result<NodeSteps, NoMemory>
        requires { All (IsValidEdge declared.now) declared.now.edges }
        ensures { IfOk result (AreZeroSteps (length declared.now.nodes) declared.now.edges reversed) }
    {
        let mut steps = NodeSteps::none(alloc, declared.node_count())?;
        for number in 0..declared.edge_count() {
            steps = steps.with_edge(declared.edge(number), reversed)?;
        }
        Ok(steps)
    }

    /// The steps with that along one more edge, where this may take no time.
    fn with_edge(self, edge: Edge, reversed: bool) -> Result<NodeSteps, NoMemory>
        requires source { edge.source < length self }
        requires target { edge.target < length self }
        ensures { IfOk result (AddsZeroStep reversed edge self) }
    {
        if edge.tmin > 0 {
            return Ok(self);
        }
        if reversed {
            self.with_step(edge.target, edge.source)
        } else {
            self.with_step(edge.source, edge.target)
        }
    }
}
