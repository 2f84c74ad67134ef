//! May clauses: by which of them a node is shown not to be active.

use super::bounds::{AllBounds, edges_into};
use super::needs::shown_edge;
use tfpg_evidence::ClauseName;
use tfpg_graph::Graph;

/// Which may clauses show of a node that it is not active.
#[derive(Clone, Copy)]
pub(super) enum May {
    /// Those of an OR node.
    Or,
    /// Those of an AND node by this edge.
    And(u32),
}

/// By which may clauses a node is shown not to be active up to the instant, if what is stated suffices.
pub(super) fn shown_by(graph: &Graph, bounds: &AllBounds, node: u32, until: u64) -> Option<May> {
    if graph.is_and(node) {
        let late = shown_edge(graph, bounds, node, until)?;
        return Some(May::And(late));
    }
    let suffices = edges_into(graph, node)
        .iter()
        .all(|edge| bounds.is_late(graph, *edge, until));
    (graph.is_or(node) && suffices).then_some(May::Or)
}

/// The may clause of a node for the span of this number, up to a horizon.
pub(super) fn may_clause(may: &May, node: u32, span: u32, horizon: u64) -> ClauseName {
    match may {
        May::Or => ClauseName::OrMay {
            node,
            span,
            horizon,
        },
        May::And(edge) => ClauseName::AndMay {
            edge: *edge,
            span,
            horizon,
        },
    }
}
