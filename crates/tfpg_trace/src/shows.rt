//! The first event of a log that a trace does not show.

ghost use Rattle.std.specs.Prelude.{◌≡◌, ◌-◌, ◌≤◌, length, Some, MatchOption};
ghost use Rattle.tfpg_log.specs.Log.{IsLogOf, IsEventOf, event_at, first_events};
ghost use Rattle.tfpg_log.specs.Explains.{Shows, ShowsAll};
ghost use Rattle.tfpg_trace.specs.inside.Shown.{IsNotShown, IsFirstNotShown};

use crate::Verdict;
use crate::alarms::shows_alarm;
use crate::all_shown::shows_all;
use crate::silences::{first_not_quiet, shows_silence};
use crate::trace_table::TraceTable;
use tfpg_graph::Graph;
use tfpg_log::{Event, Log};

/// What is said of the first event that the trace does not show. Goes through the nodes. Only where some event is not shown
/// does it go through the events, and for each sweep through the nodes.
pub(crate) fn first_not_shown(graph: &Graph, log: &Log, trace: &TraceTable<'_>) -> Option<Verdict>
    requires { IsLogOf graph.now log.now }
    ensures { MatchOption result
        (ShowsAll graph.now log.now trace.now)
        (IsFirstNotShown graph.now log.now trace.now) }
{
    if shows_all(graph, log, trace) {
        return None;
    }
    for index in 0..log.len() {
        let number = index + 1;
        if let Some(fault) = not_shown(graph, log, trace, number, log.event(number)) {
            return Some(fault);
        }
    }
    None
}

/// What is said of the event of this number, where the trace does not show it.
fn not_shown(
    graph: &Graph,
    log: &Log,
    trace: &TraceTable<'_>,
    number: u32,
    event: Event,
) -> Option<Verdict>
    requires low { 1 ≤ number }
    requires high { number ≤ length log.now.events }
    requires at { event_at log.now number ≡ Some event }
    requires own { IsEventOf graph.now event }
    ensures { MatchOption result
        (Shows graph.now (first_events log.now (number - 1)) trace.now event)
        (IsNotShown graph.now (first_events log.now (number - 1)) trace.now event) }
{
    match event {
        Event::Alarm { time, node } => {
            if shows_alarm(graph, log, trace, node, time) {
                return None;
            }
            Some(Verdict::Alarm { node, time })
        }
        Event::Silent { time, node } => {
            if shows_silence(graph, log, trace, node, time) {
                return None;
            }
            Some(Verdict::Silence { node, time })
        }
        Event::Sweep { time: _ } => match first_not_quiet(graph, log, trace, number) {
            Some((node, time)) => Some(Verdict::Silence { node, time }),
            None => None,
        },
        Event::Tick { time: _ } => None,
        Event::Mode { time: _, mode: _ } => None,
    }
}
