//! Whether a node can have to be active before it is, by the times of its sources and without the log. Most nodes of a trace
//! have no active source, or become active no later than their edges let the failure arrive: for these the must rule needs
//! no pass over the spans.

ghost use Rattle.std.specs.Prelude.{◌≡◌, ◌+◌, ◌<◌, ◌↔◌, ℕ, length, false, IfSome, IsTrue, IsSomeAnd, slice_get};
ghost use Rattle.tfpg_log.specs.Log.{Logbook};
ghost use Rattle.tfpg_log.specs.Rules.{KeepsMust};
ghost use Rattle.tfpg_trace.specs.inside.Due.{CanBeDue, SomeCanBeDue, AllCanBeDue};

use crate::trace_table::TraceTable;
use tfpg_graph::{Graph, Kind};

/// Whether enough edges into the node can become due before it is active: one at an OR node, and all at an AND node. If not,
/// the node keeps the must rule at each instant, whatever the log. Goes through the edges into the node.
pub(crate) fn can_be_late(graph: &Graph, trace: &TraceTable<'_>, node: u32) -> bool
    requires { node < length graph.now.nodes }
    ensures { result ≡ false → (log : Logbook) (instant : ℕ) →
        KeepsMust graph.now log trace.now node instant }
{
    let until = trace.at(node);
    match graph.kind(node) {
        Kind::Failure { .. } => false,
        Kind::Or { .. } => some_can_be_due(graph, trace, node, until),
        Kind::And { .. } => all_can_be_due(graph, trace, node, until),
    }
}

/// Whether some edge into the node can become due before the time.
fn some_can_be_due(graph: &Graph, trace: &TraceTable<'_>, node: u32, until: Option<u64>) -> bool
    requires { node < length graph.now.nodes }
    ensures { IsTrue result ↔ SomeCanBeDue graph.now trace.now node until }
{
    let incoming = graph.incoming(node);
    for number in incoming {
        if edge_can_be_due(graph, trace, *number, until) {
            return true;
        }
    }
    false
}

/// Whether each edge into the node can become due before the time.
fn all_can_be_due(graph: &Graph, trace: &TraceTable<'_>, node: u32, until: Option<u64>) -> bool
    requires { node < length graph.now.nodes }
    ensures { IsTrue result ↔ AllCanBeDue graph.now trace.now node until }
{
    let incoming = graph.incoming(node);
    for number in incoming {
        if !edge_can_be_due(graph, trace, *number, until) {
            return false;
        }
    }
    true
}

/// Whether the edge can become due before the time: its greatest delay is finite, and passes before then from where its
/// source becomes active.
fn edge_can_be_due(graph: &Graph, trace: &TraceTable<'_>, edge: u32, until: Option<u64>) -> bool
    requires { edge < length graph.now.edges }
    ensures { IsTrue result ↔ IsSomeAnd (slice_get graph.now.edges edge) (CanBeDue trace.now until) }
{
    let propagation = graph.edge(edge);
    match (propagation.tmax, trace.at(propagation.source)) {
        (Some(delay), Some(start)) => passes_before(start, delay, until),
        _ => false,
    }
}

/// Whether the delay has passed from the start before the time, where there is one.
fn passes_before(start: u64, delay: u64, until: Option<u64>) -> bool
    ensures { IsTrue result ↔ IfSome until (λ time. start + delay < time) }
{
    match until {
        Some(time) => is_before(start, delay, time),
        None => true,
    }
}

/// Whether the delay has passed from the start before the time.
fn is_before(start: u64, delay: u64, time: u64) -> bool
    ensures { IsTrue result ↔ (start + delay < time) }
{
    start < time && delay < time - start
}
