//! The silences that a trace does not show.

ghost use Rattle.std.specs.Prelude.{◌↔◌, ℕ, length, IsTrue, MatchOption};
ghost use Rattle.tfpg_log.specs.Rules.{IsActive};
ghost use Rattle.tfpg_log.specs.Explains.{ShowsSilence};
ghost use Rattle.tfpg_trace.specs.FirstFault.{IsFirstNode, NoneBefore};
ghost use Rattle.tfpg_trace.specs.inside.Shown.{IsNotQuiet};

use crate::trace_table::TraceTable;
use tfpg_graph::Graph;
use tfpg_log::Log;

/// The first node of which the event of this number is a silence that the trace does not show, and the time of the event.
/// Goes through the nodes.
pub(crate) fn first_not_quiet(
    graph: &Graph,
    log: &Log,
    trace: &TraceTable<'_>,
    number: u32,
) -> Option<(u32, u64)>
    ensures { MatchOption result
        (NoneBefore (IsNotQuiet graph.now log.now trace.now number) (length graph.now.nodes))
        (λ found. IsFirstNode (IsNotQuiet graph.now log.now trace.now number)
        (length graph.now.nodes) found.0 found.1) }
{
    for node in 0..graph.node_count() {
        if let Some(time) = not_quiet_time(graph, log, trace, number, node) {
            return Some((node, time));
        }
    }
    None
}

/// The time of the event of this number, where it is a silence of the node that the trace does not show.
fn not_quiet_time(
    graph: &Graph,
    log: &Log,
    trace: &TraceTable<'_>,
    number: u32,
    node: u32,
) -> Option<u64>
    ensures { MatchOption result
        ((time : ℕ) → IsNotQuiet graph.now log.now trace.now number node time → ⊥)
        (IsNotQuiet graph.now log.now trace.now number node) }
{
    let time = log.silence_at(graph, number, node)?;
    if shows_silence(graph, log, trace, node, time) {
        None
    } else {
        Some(time)
    }
}

/// Whether the trace shows a silence of the node at this time.
pub(crate) fn shows_silence(
    graph: &Graph,
    log: &Log,
    trace: &TraceTable<'_>,
    node: u32,
    time: u64,
) -> bool
    ensures { IsTrue result ↔ ShowsSilence graph.now log.now trace.now node time }
{
    match log.inactive_until(graph, node, time) {
        Some(until) => !is_active(trace, node, until),
        None => true,
    }
}

/// Whether the node is active at the instant.
pub(crate) fn is_active(trace: &TraceTable<'_>, node: u32, instant: u64) -> bool
    ensures { IsTrue result ↔ IsActive trace.now node instant }
{
    match trace.at(node) {
        Some(time) => time <= instant,
        None => false,
    }
}
