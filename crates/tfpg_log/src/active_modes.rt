//! Sets of modes in which an edge, or each edge into a node, is active.

ghost use Rattle.std.specs.Prelude.{◌≡◌, ◌<◌, ◌&&◌, ℕ, length};
ghost use Rattle.std.specs.List.{list_all};
ghost use Rattle.tfpg_graph.specs.Graph.{is_active_in, edges_into};
ghost use Rattle.tfpg_log.specs.inside.ActiveModes.{has_mode};

use tfpg_graph::{Edge, Graph};

/// The modes in which something is active.
#[derive(Clone, Copy)]
pub(crate) enum ActiveModes {
    /// All modes.
    Every,
    /// Those of an edge.
    OfEdge(Edge),
}

impl ActiveModes {
    /// Whether the mode is one of them.
    pub(crate) fn has(&self, mode: u32) -> bool
        ensures { result ≡ has_mode self.now mode }
    {
        match self {
            ActiveModes::Every => true,
            ActiveModes::OfEdge(edge) => edge.is_active_in(mode),
        }
    }

    /// Those of them in which the edge is active too.
    fn and(self, edge: Edge) -> ActiveModes
        ensures { (mode : ℕ) → has_mode result mode ≡ (has_mode self mode && is_active_in edge mode) }
    {
        match self {
            ActiveModes::Every => ActiveModes::OfEdge(edge),
            ActiveModes::OfEdge(own) => ActiveModes::OfEdge(own.active_with(&edge)),
        }
    }
}

/// The modes in which all edges into the node are active at once. Goes through these edges.
pub(crate) fn modes_into(graph: &Graph, node: u32) -> ActiveModes
    requires { node < length graph.now.nodes }
    ensures { (mode : ℕ) → has_mode result mode ≡ list_all
        (λ edge. is_active_in edge mode) (edges_into graph.now node) }
{
    let mut modes = ActiveModes::Every;
    let incoming = graph.incoming(node);
    for number in incoming {
        modes = modes.and(graph.edge(*number));
    }
    modes
}
