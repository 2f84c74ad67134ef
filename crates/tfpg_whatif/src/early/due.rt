//! What would be due: a node is not active so early that a node after it would have to be active, and is not.

use tfpg_graph::{Edge, Graph};
use tfpg_log::{Log, Window};

/// A lower bound of the time of a node, by a must clause of an edge from it: were the node active before, the failure would be due at
/// the target of the edge before that can be active. Times are in milliseconds.
#[derive(Clone, Copy)]
pub(super) struct DueBound {
    pub(super) time: u64,
    pub(super) edge: u32,
    pub(super) target: u32,
    /// The greatest delay of the edge.
    delay: u64,
    /// The first span of the window of the edge.
    pub(super) span: u32,
    /// The first instant of this window.
    begin: u64,
}

impl DueBound {
    /// By when the target is active, where the node is by the instant.
    pub(super) fn active_by(&self, instant: u64) -> u64 {
        instant.max(self.begin).saturating_add(self.delay)
    }

    /// By when the target is active that follows the node in time, where the node is active by the instant.
    pub(super) fn follows_by(&self, instant: u64) -> u64 {
        instant.saturating_add(self.delay)
    }

    /// By when the target is active, where the node was so before the window began.
    pub(super) fn begins_by(&self) -> u64 {
        self.begin.saturating_add(self.delay)
    }
}

/// The bound of the source of an edge into an OR node whose time is at least this, where the bound is greater than the one so far: the
/// edge is on up to the last instant before the target's time, and long enough for the failure to be due. The edge may be any number.
pub(super) fn due_bound(
    graph: &Graph,
    log: &Log,
    edge: u32,
    target_time: u64,
    so_far: u64,
) -> Option<DueBound> {
    let propagation = edge_at(graph, edge)?;
    let delay = propagation.tmax?;
    let inactive = target_time.checked_sub(1)?.min(log.now());
    let time = inactive.checked_sub(delay)?.saturating_add(1);
    if time <= so_far {
        return None;
    }
    let window = window_at(graph, log, edge, inactive)?;
    if window.lo.saturating_add(delay) > inactive {
        return None;
    }
    Some(DueBound {
        time,
        edge,
        target: propagation.target,
        delay,
        span: window.first,
        begin: window.lo,
    })
}

/// The edge of this number, where there is one.
fn edge_at(graph: &Graph, edge: u32) -> Option<Edge> {
    if edge < graph.edge_count() {
        return Some(graph.edge(edge));
    }
    None
}

/// The window of an edge round the instant, up to now, where there is one.
fn window_at(graph: &Graph, log: &Log, edge: u32, instant: u64) -> Option<Window> {
    let span = log.span_of(instant)?;
    if edge < graph.edge_count() {
        return log.window_of(graph, edge, span, log.now());
    }
    None
}
