//! The names that a graph gives its parts, as words of a line.

ghost use Rattle.std.specs.Prelude.{◌≡◌, ◌<◌, ◌∷◌, [], length};
ghost use Rattle.tfpg_graph.specs.Graph.{failures, failure_word};
ghost use Rattle.tfpg_report.specs.LineWords.{edge_words};

use tfpg_graph::Graph;

/// The names of the nodes that an edge leaves and enters.
pub(crate) fn edge_names(graph: &Graph, edge: u32) -> (&[u8], &[u8])
    requires { edge < length graph.now.edges }
    ensures { edge_words graph.now edge ≡ result.0.now ∷ result.1.now ∷ [] }
{
    let nodes = graph.node_count();
    let edge = graph.edge(edge);
    prove!(edge.source < nodes && edge.target < nodes);
    (graph.name(edge.source), graph.name(edge.target))
}

/// The name of the failure mode at a position.
pub(crate) fn failure_word(graph: &Graph, position: u32) -> &[u8]
    requires { position < length (failures graph.now) }
    ensures { result.now ≡ failure_word graph.now position }
{
    graph.name(graph.failure_node(position))
}
