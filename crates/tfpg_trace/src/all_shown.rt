//! Whether a trace shows all events of a log, without a pass over them. Times never fall from one event to the next. So of
//! the alarms of a node it is enough to show the first and the last, and of its silences the last.

ghost use Rattle.std.specs.Prelude.{◌<◌, ◌↔◌, ℕ, length, IsTrue, MatchOption};
ghost use Rattle.tfpg_log.specs.Log.{IsLogOf};
ghost use Rattle.tfpg_log.specs.Explains.{ShowsAll};
ghost use Rattle.tfpg_trace.specs.inside.Shown.{IsAlarmTime, IsQuietUpto, AreAlarmTimes, IsQuietLongest, ShowsAlarmsOf, ShowsSilencesOf, ShowsNode};

use crate::alarms::shows_alarm;
use crate::trace_table::TraceTable;
use tfpg_graph::Graph;
use tfpg_log::Log;

/// Whether the trace shows each event of the log. Goes through the nodes, and takes constant time at each.
pub(crate) fn shows_all(graph: &Graph, log: &Log, trace: &TraceTable<'_>) -> bool
    requires { IsLogOf graph.now log.now }
    ensures { IsTrue result ↔ ShowsAll graph.now log.now trace.now }
{
    for node in 0..graph.node_count() {
        if !shows_node(graph, log, trace, node) {
            return false;
        }
    }
    true
}

/// Whether the trace shows each alarm and each silence of the node.
fn shows_node(graph: &Graph, log: &Log, trace: &TraceTable<'_>, node: u32) -> bool
    requires { node < length graph.now.nodes }
    ensures { IsTrue result ↔ ShowsNode graph.now log.now trace.now node }
{
    shows_alarms(graph, log, trace, node) && shows_silences(graph, log, trace, node)
}

/// Whether the trace shows each alarm of the node: its first and its last.
fn shows_alarms(graph: &Graph, log: &Log, trace: &TraceTable<'_>, node: u32) -> bool
    requires { node < length graph.now.nodes }
    ensures { IsTrue result ↔ ShowsAlarmsOf graph.now log.now trace.now node }
{
    match alarm_times(log, node) {
        Some((first, last)) => {
            shows_alarm(graph, log, trace, node, first)
                && shows_alarm(graph, log, trace, node, last)
        }
        None => true,
    }
}

/// The times of the node's first alarm and of its last, where it has any.
fn alarm_times(log: &Log, node: u32) -> Option<(u64, u64)>
    ensures { MatchOption result
        ((time : ℕ) → IsAlarmTime log.now node time → ⊥)
        (λ times. AreAlarmTimes log.now node times.0 times.1) }
{
    log.is_always_ordered();
    let first = log.alarm_of(node)?;
    let last = log.find_event(log.last_alarm(node)?)?;
    Some((first, last.time()))
}

/// Whether the trace shows each silence of the node, its own or that of a sweep: the last. A node that never becomes active
/// shows each, and is not looked up in the log.
fn shows_silences(graph: &Graph, log: &Log, trace: &TraceTable<'_>, node: u32) -> bool
    ensures { IsTrue result ↔ ShowsSilencesOf graph.now log.now trace.now node }
{
    let Some(start) = trace.at(node) else {
        return true;
    };
    match quiet_longest(graph, log, node) {
        Some(until) => until < start,
        None => true,
    }
}

/// The last instant up to which an event says that the node is not active, where there is one.
fn quiet_longest(graph: &Graph, log: &Log, node: u32) -> Option<u64>
    ensures { MatchOption result
        ((until : ℕ) → IsQuietUpto graph.now log.now node until → ⊥)
        (IsQuietLongest graph.now log.now node) }
{
    log.is_always_ordered();
    let number = log.last_quiet(graph, node)?;
    log.quiet_at(graph, number, node)
}
