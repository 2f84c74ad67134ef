//! Look-ups that are total: of the edges of a graph by any number, and of the windows of an edge from an instant on.

use tfpg_graph::{Edge, Graph};
use tfpg_log::{Log, Window};

/// The edges into a node. The node may be any number.
pub(super) fn edges_into(graph: &Graph, node: u32) -> &[u32] {
    if node < graph.node_count() {
        return graph.incoming(node);
    }
    &[]
}

/// The edge of this number, where there is one.
pub(super) fn edge_at(graph: &Graph, edge: u32) -> Option<Edge> {
    if edge < graph.edge_count() {
        return Some(graph.edge(edge));
    }
    None
}

/// The number of the last span up to now.
pub(super) fn last_span(log: &Log) -> u32 {
    log.span_of(log.now()).unwrap_or(0)
}

/// The window of an edge round the instant, or else its first one after it, up to now. Goes through the spans between.
pub(super) fn window_from(graph: &Graph, log: &Log, edge: u32, instant: u64) -> Option<Window> {
    let first = log.span_of(instant)?;
    for span in first..=last_span(log) {
        if let Some(window) = window_over(graph, log, edge, span) {
            return Some(window);
        }
    }
    None
}

/// The window of an edge round this span, up to now, where there is one.
pub(super) fn window_over(graph: &Graph, log: &Log, edge: u32, span: u32) -> Option<Window> {
    if edge < graph.edge_count() {
        return log.window_of(graph, edge, span, log.now());
    }
    None
}

/// The joint window of the edges into a node round the instant, or else their first one after it, up to now. Goes through the spans between.
pub(super) fn joint_from(graph: &Graph, log: &Log, node: u32, instant: u64) -> Option<Window> {
    let first = log.span_of(instant)?;
    for span in first..=last_span(log) {
        if let Some(window) = joint_over(graph, log, node, span) {
            return Some(window);
        }
    }
    None
}

/// The joint window of the edges into a node round this span, up to now, where there is one.
pub(super) fn joint_over(graph: &Graph, log: &Log, node: u32, span: u32) -> Option<Window> {
    if node < graph.node_count() {
        return log.joint_of(graph, node, span, log.now());
    }
    None
}
