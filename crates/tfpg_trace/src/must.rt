//! Where a node breaks the must rule first: where it must be active and is not.

ghost use Rattle.std.specs.Prelude.{◌<◌, ◌≤◌, ◌+◌, ℕ, length, Some};
ghost use Rattle.tfpg_graph.specs.Graph.{incoming};
ghost use Rattle.tfpg_log.specs.Log.{Logbook, now_of};
ghost use Rattle.tfpg_log.specs.Rules.{IsActive};
ghost use Rattle.tfpg_trace.specs.inside.FirstFaultIn.{IsFirstMustFault};
ghost use Rattle.tfpg_trace.specs.inside.Gaps.{AreGaps, HasGaps, StartsSpan};
ghost use Rattle.tfpg_trace.specs.inside.FirstFaultIn.{IsFirstFaultIn};

use crate::due::{SpanStart, due_in_span};
use crate::due_first::can_be_late;
use crate::gaps::pass_span;
use crate::silences::is_active;
use crate::trace_table::TraceTable;
use tfpg_graph::{Graph, MAX_INCOMING};
use tfpg_log::Log;

/// The first instant up to now, in milliseconds, at which the node breaks the must rule, where there is one. Takes no
/// memory. Goes through the edges into the node. Only where enough of them can become due before it is active does it go once through the spans
/// up to the node's own time, or up to now where it has none, and in each through these edges.
pub(crate) fn first_must_fault(
    graph: &Graph,
    log: &Log,
    trace: &TraceTable<'_>,
    node: u32,
) -> Option<u64>
    requires { node < length graph.now.nodes }
    ensures { IsFirstMustFault graph.now log.now trace.now node result }
{
    if !can_be_late(graph, trace, node) {
        return None;
    }
    // A valid graph has few edges into a node: there are gaps enough for them.
    graph.is_always_valid();
    let last = log.span_of(last_to_try(log, trace, node))?;
    let mut gaps: [Option<u64>; MAX_INCOMING] = [None; MAX_INCOMING];
    for number in 0..=last {
        if let Some(instant) = fault_at(graph, log, trace, node, number, &mut gaps) {
            return Some(instant);
        }
    }
    None
}

/// An instant after which the node is active up to now: its own time, or now where it has no time by then.
fn last_to_try(log: &Log, trace: &TraceTable<'_>, node: u32) -> u64
    ensures by_now { result ≤ now_of log.now }
    ensures rest { (instant : ℕ) → result < instant → instant ≤ now_of log.now →
        IsActive trace.now node instant }
{
    let now = log.now();
    match trace.at(node) {
        Some(time) => time.min(now),
        None => now,
    }
}

/// The first instant of the span of this number at which the node breaks the must rule, where there is one. Takes the gaps
/// of the edges into the node over the span.
fn fault_at(
    graph: &Graph,
    log: &Log,
    trace: &TraceTable<'_>,
    node: u32,
    number: u32,
    gaps: &mut [Option<u64>],
) -> Option<u64>
    requires node { node < length graph.now.nodes }
    requires room { length (incoming graph.now node) ≤ length gaps.old }
    requires gaps { AreGaps graph.now log.now node number gaps.old }
    ensures fault { IsFirstFaultIn graph.now log.now trace.now node number result }
    ensures gaps { AreGaps graph.now log.now node (number + 1) gaps.new }
{
    let span = log.span(number, log.now())?;
    let start = SpanStart { node, span, gaps };
    let fault = fault_in_span(graph, trace, &start);
    pass_span(graph, node, span, gaps);
    fault
}

/// The first instant of the span at which the node breaks the must rule, where there is one.
fn fault_in_span(graph: &Graph, trace: &TraceTable<'_>, start: &SpanStart<'_>) -> Option<u64>
    requires { HasGaps graph.now start.now.node start.now.gaps.now }
    ensures { (log : Logbook) (number : ℕ) →
        StartsSpan graph.now log start.now.node number start.now.span start.now.gaps.now →
        IsFirstFaultIn graph.now log trace.now start.now.node number result }
{
    let due = due_in_span(graph, trace, start)?;
    if is_active(trace, start.node, due) {
        return None;
    }
    Some(due)
}
