//! Whether a trace explains a log from a set of failure modes.

ghost use Rattle.std.specs.Prelude.{◌≡◌, ◌<◌, length, All};
ghost use Rattle.tfpg_log.specs.Log.{IsLogOf};
ghost use Rattle.tfpg_log.specs.Explains.{Explains};
ghost use Rattle.tfpg_trace.specs.FirstFault.{IsVerdict};

use crate::Verdict;
use crate::rules::broken_rule;
use crate::shows::first_not_shown;
use crate::strays::{first_late, first_stranger};
use crate::trace_table::TraceTable;
use tfpg_base::{Set, Trace};
use tfpg_graph::Graph;
use tfpg_log::Log;

/// Whether the trace explains the log from the set, and if not, its first fault. Faults come in this order: times after
/// now; failure modes outside the set; rules that are broken, node by node; events that are not shown, in their order.
///
/// The set may be any: a member that is no position of a failure mode names no node. Takes no memory, and 8 KB of the stack.
/// Goes through the trace, and through the nodes with the edges into each. Besides, at a node that becomes active it goes
/// through one window of each of these edges, and at a node whose edges can become due through the spans up to its time, or
/// up to now where it has none, and in each through these edges. Only where some event is not shown does it go through the
/// events, and then at each sweep through the nodes.
pub fn explains(graph: &Graph, log: &Log, set: Set, trace: &Trace) -> Verdict
    requires of { IsLogOf graph.now log.now }
    requires nodes { All (λ activation. activation.node < length graph.now.nodes) trace.now }
    ensures verdict { IsVerdict graph.now log.now set trace.now result }
    ensures yes { Explains graph.now log.now set trace.now → result ≡ Verdict.Yes }
{
    graph.is_always_valid();
    let table = TraceTable::of(trace);
    // Apart, so that the clause `yes` follows from what is said alone.
    first_fault(graph, log, set, &table)
}

/// The first fault of the trace, or that it has none.
fn first_fault(graph: &Graph, log: &Log, set: Set, trace: &TraceTable<'_>) -> Verdict
    requires of { IsLogOf graph.now log.now }
    requires nodes { All (λ activation. activation.node < length graph.now.nodes) trace.now }
    ensures { IsVerdict graph.now log.now set trace.now result }
{
    trace.is_always_rising();
    if let Some((node, time)) = first_late(graph, log, trace) {
        return Verdict::Late { node, time };
    }
    if let Some((node, time)) = first_stranger(graph, set, trace) {
        return Verdict::Stranger { node, time };
    }
    if let Some(fault) = broken_rule(graph, log, trace) {
        return fault;
    }
    if let Some(fault) = first_not_shown(graph, log, trace) {
        return fault;
    }
    Verdict::Yes
}
