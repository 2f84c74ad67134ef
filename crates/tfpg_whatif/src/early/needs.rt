//! What has to be shown, so that a node is shown not to be active up to an instant.

use super::PASSES;
use super::bounds::{AllBounds, edges_into, source_and_delay};
use tfpg_graph::Graph;

/// Finds up to when each node has to be shown not to be active.
pub(super) fn find_needs(graph: &Graph, bounds: &mut AllBounds) {
    for _ in 0..PASSES {
        if !find_needs_once(graph, bounds) {
            return;
        }
    }
}

/// Goes through the nodes once, from the last on. Returns whether something new is needed.
fn find_needs_once(graph: &Graph, bounds: &mut AllBounds) -> bool {
    let mut new = false;
    for node in (0..graph.node_count()).rev() {
        if let Some(until) = unstated(bounds, node) {
            new = need_for(graph, bounds, node, until) || new;
        }
    }
    new
}

/// Up to when the node has to be shown not to be active, where its bound does not state that yet.
fn unstated(bounds: &AllBounds, node: u32) -> Option<u64> {
    let known = bounds.at(node);
    known.needed.filter(|until| known.stated.time <= *until)
}

/// What a node needs of others, so that it is not active up to the instant: of the node that would be due then, where one would, and
/// else of the sources of its edges. Returns whether that is new.
fn need_for(graph: &Graph, bounds: &mut AllBounds, node: u32, until: u64) -> bool {
    match bounds.at(node).due_by(until) {
        Some(due) => bounds.need(due.target, due.active_by(until)),
        None => need_sources_of(graph, bounds, node, until),
    }
}

/// What a node needs of the sources of its edges, so that the failure arrives by none up to the instant: of all, and for an AND node of
/// one. Returns whether that is new.
fn need_sources_of(graph: &Graph, bounds: &mut AllBounds, node: u32, until: u64) -> bool {
    if graph.is_and(node) {
        return match late_edge(graph, bounds, node, until) {
            Some(edge) => need_source(graph, bounds, edge, until),
            None => false,
        };
    }
    let mut new = false;
    for edge in edges_into(graph, node) {
        new = need_source(graph, bounds, *edge, until) || new;
    }
    new
}

/// What is needed of the source of an edge, so that the failure does not arrive by it up to the instant.
fn need_source(graph: &Graph, bounds: &mut AllBounds, edge: u32, until: u64) -> bool {
    let (source, delay) = source_and_delay(graph, edge);
    match until.checked_sub(delay) {
        Some(until) => bounds.need(source, until),
        None => false,
    }
}

/// An edge into an AND node by which the failure cannot arrive up to the instant: by what is stated, if there is one, and else by what
/// follows.
fn late_edge(graph: &Graph, bounds: &AllBounds, node: u32, until: u64) -> Option<u32> {
    match shown_edge(graph, bounds, node, until) {
        Some(edge) => Some(edge),
        None => edges_into(graph, node)
            .iter()
            .find(|edge| bounds.arrival(graph, **edge) > until)
            .copied(),
    }
}

/// An edge into a node of which what is stated shows that the failure does not arrive by it up to the instant.
pub(super) fn shown_edge(graph: &Graph, bounds: &AllBounds, node: u32, until: u64) -> Option<u32> {
    edges_into(graph, node)
        .iter()
        .find(|edge| bounds.is_late(graph, **edge, until))
        .copied()
}
