//! The may rule: whether the failure has arrived where a node becomes active.

ghost use Rattle.std.specs.Prelude.{◌≡◌, ◌<◌, ◌≤◌, ◌↔◌, length, IsTrue, IsSomeAnd, Some, slice_get};
ghost use Rattle.tfpg_base.specs.Trace.{time_of};
ghost use Rattle.tfpg_log.specs.Log.{now_of};
ghost use Rattle.tfpg_log.specs.Rules.{HasAge, KeepsMay, SomeArrives, AllArrive};

use crate::ages::has_age;
use crate::trace_table::TraceTable;
use tfpg_graph::{Graph, Kind};
use tfpg_log::Log;

/// Whether the node keeps the may rule where it becomes active. Goes through the edges into it, and for each through the
/// spans of its window.
pub(crate) fn keeps_may(
    graph: &Graph,
    log: &Log,
    trace: &TraceTable<'_>,
    node: u32,
    time: u64,
) -> bool
    requires node { node < length graph.now.nodes }
    requires at { time_of trace.now node ≡ Some time }
    requires by_now { time ≤ now_of log.now }
    ensures { IsTrue result ↔ KeepsMay graph.now log.now trace.now node time }
{
    match graph.kind(node) {
        Kind::Failure { rarity: _ } => true,
        Kind::Or { lag: _ } => some_arrives(graph, log, trace, node, time),
        Kind::And { lag: _ } => all_arrive(graph, log, trace, node, time),
    }
}

/// Whether some edge into the node has carried the failure for its least delay.
fn some_arrives(graph: &Graph, log: &Log, trace: &TraceTable<'_>, node: u32, time: u64) -> bool
    requires node { node < length graph.now.nodes }
    requires by_now { time ≤ now_of log.now }
    ensures { IsTrue result ↔ SomeArrives graph.now log.now trace.now node time }
{
    let incoming = graph.incoming(node);
    for number in incoming {
        if has_carried(graph, log, trace, *number, time) {
            return true;
        }
    }
    false
}

/// Whether each edge into the node has carried the failure for its least delay.
fn all_arrive(graph: &Graph, log: &Log, trace: &TraceTable<'_>, node: u32, time: u64) -> bool
    requires node { node < length graph.now.nodes }
    requires by_now { time ≤ now_of log.now }
    ensures { IsTrue result ↔ AllArrive graph.now log.now trace.now node time }
{
    let incoming = graph.incoming(node);
    for number in incoming {
        if !has_carried(graph, log, trace, *number, time) {
            return false;
        }
    }
    true
}

/// Whether the edge has carried the failure for its least delay.
fn has_carried(graph: &Graph, log: &Log, trace: &TraceTable<'_>, edge: u32, time: u64) -> bool
    requires edge { edge < length graph.now.edges }
    requires by_now { time ≤ now_of log.now }
    ensures { IsTrue result ↔ IsSomeAnd (slice_get graph.now.edges edge)
        (λ e. HasAge log.now trace.now e time e.tmin) }
{
    has_age(graph, log, trace, edge, time, graph.edge(edge).tmin)
}
