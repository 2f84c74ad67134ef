//! Whether a trace shows an alarm.

ghost use Rattle.std.specs.Prelude.{◌<◌, ◌↔◌, length, IsTrue};
ghost use Rattle.tfpg_log.specs.Explains.{ShowsAlarm};
ghost use Rattle.tfpg_log.specs.inside.ShownByLookUp.{IsActivatedIn};

use crate::trace_table::TraceTable;
use tfpg_graph::Graph;
use tfpg_log::{Interval, Log};

/// Whether the node is monitored and became active at one of the instants that its alarm at this time leaves.
pub(crate) fn shows_alarm(
    graph: &Graph,
    log: &Log,
    trace: &TraceTable<'_>,
    node: u32,
    time: u64,
) -> bool
    requires { node < length graph.now.nodes }
    ensures { IsTrue result ↔ ShowsAlarm graph.now log.now trace.now node time }
{
    if !graph.is_monitored(node) {
        return false;
    }
    match log.alarm_interval(graph, node, time) {
        Some(interval) => is_activated_in(trace, node, interval),
        None => true,
    }
}

/// Whether the node became active at one of the instants.
fn is_activated_in(trace: &TraceTable<'_>, node: u32, interval: Interval) -> bool
    ensures { IsTrue result ↔ IsActivatedIn trace.now node interval }
{
    match trace.at(node) {
        Some(active) => interval.earliest <= active && active <= interval.latest,
        None => false,
    }
}
