//! What is asked of a node, and why it takes no probe.

ghost use Rattle.std.specs.Prelude.{◌≡◌};
ghost use Rattle.tfpg_answers.specs.Probing.{probed_node};

use tfpg_base::Terms;
use tfpg_graph::{Graph, MAX_EDGES, MAX_NODES};

/// What is asked of a graph and a log: when a node becomes active at the earliest.
#[derive(Clone, Copy)]
pub struct ForecastRequest<'a> {
    /// On which terms the log is diagnosed.
    pub terms: Terms,
    /// How many milliseconds past the last event it is looked.
    pub ahead: u64,
    /// The name of the node.
    pub node: &'a [u8],
}

/// Why a node takes no probe.
#[derive(Clone, Copy, PartialEq, Eq)]
pub enum ProbeFault {
    /// The graph has [`MAX_NODES`](tfpg_graph::MAX_NODES) nodes, and no room for one more.
    TooManyNodes,
    /// The graph has [`MAX_EDGES`](tfpg_graph::MAX_EDGES) edges, and no room for one more.
    TooManyEdges,
    /// The graph has no node of this name.
    UnknownNode,
}

/// The node of this name, where it takes a probe.
pub fn probed_node(graph: &Graph, name: &[u8]) -> Result<u32, ProbeFault>
    ensures { result ≡ probed_node graph.now name.now }
{
    if graph.node_count() >= MAX_NODES {
        return Err(ProbeFault::TooManyNodes);
    }
    if graph.edge_count() >= MAX_EDGES {
        return Err(ProbeFault::TooManyEdges);
    }
    match graph.find(name) {
        Some(node) => Ok(node),
        None => Err(ProbeFault::UnknownNode),
    }
}
