//! The gaps of the edges into a node: of each edge, by its index among them, the last instant so far at which it was
//! not active, where there is one.

ghost use Rattle.std.specs.Prelude.{◌≡◌, ◌<◌, ◌≤◌, ℕ, length, slice_index_or, None};
ghost use Rattle.tfpg_graph.specs.Graph.{incoming};
ghost use Rattle.tfpg_trace.specs.inside.Gaps.{gap_after};

use tfpg_graph::Graph;
use tfpg_log::Span;

/// Takes the gaps over the span: an edge that is not active in the mode of the span has its gap at the end of the span.
/// Goes through the edges into the node.
pub(crate) fn pass_span(graph: &Graph, node: u32, span: Span, gaps: &mut [Option<u64>])
    requires node { node < length graph.now.nodes }
    requires room { length (incoming graph.now node) ≤ length gaps.old }
    ensures { (index : ℕ) → index < length (incoming graph.now node) →
        slice_index_or gaps.new index None
        ≡ gap_after graph.now span
        (slice_index_or (incoming graph.now node) index 0) (slice_index_or gaps.old index None) }
{
    let incoming = graph.incoming(node);
    for (index, edge) in incoming.iter().enumerate() {
        gaps[index] = gap_after(graph, *edge, span, gaps[index]);
    }
}

/// The gap of the edge once the span is over.
fn gap_after(graph: &Graph, edge: u32, span: Span, gap: Option<u64>) -> Option<u64>
    requires { edge < length graph.now.edges }
    ensures { result ≡ gap_after graph.now span edge gap }
{
    if graph.edge(edge).is_active_in(span.mode) {
        gap
    } else {
        Some(span.hi)
    }
}
