//! The facts of a log and of the reach of a set.

ghost use Rattle.std.specs.Prelude.{◌≡◌, ◌<◌, ◌≤◌, ◌+◌, pos, length, not, ◌&&◌, nat_lt, nat_le, option_map, option_and_then, IfSome};
ghost use Rattle.std.specs.Result.{result_ok};
ghost use Rattle.std.specs.Bool.{then_some};
ghost use Rattle.tfpg_base.specs.declared.limits.TheConstants.{MAX_TIME, NEVER};
ghost use Rattle.tfpg_graph.specs.declared.limits.TheConstants.{MAX_NODES};
ghost use Rattle.tfpg_log.specs.Log.{IsLogOf, now_of, event_at, alarm_interval, quiet_at};
ghost use Rattle.tfpg_graph.specs.Reach.{is_among};
ghost use Rattle.tfpg_clause.specs.inside.Ranges.{IsSmallAlarm};
ghost use Rattle.tfpg_base.specs.Bounds.{at_least, at_most};
ghost use Rattle.tfpg_clause.specs.Case.{case_of};
ghost use Rattle.tfpg_clause.specs.Facts.{fact, from_alarm, upto_alarm};

use crate::bounds::{at_least, at_most};
use tfpg_base::{Constraint, NEVER};
use tfpg_evidence::Reason;
use tfpg_graph::{Graph, NodeSet};
use tfpg_log::{Event, Interval, Log};

/// The reason states no fact.
#[derive(Clone, Copy, PartialEq, Eq)]
pub struct NotAFact;

/// The constraint that the reason states, where it is a fact of the log and of a set that reaches these nodes. A pick is
/// none, and so is a reason that names no node, or no event of the log that says so. Takes constant time and no memory.
pub fn fact(
    graph: &Graph,
    log: &Log,
    reach: &NodeSet,
    reason: Reason,
) -> Result<Constraint, NotAFact>
    requires of { IsLogOf graph.now log.now }
    ensures { result_ok result ≡ fact (case_of graph.now log.now reach.now) reason }
{
    fact_of(graph, log, reach, reason).ok_or(NotAFact)
}

/// The constraint of the fact that the reason states, where it states one.
fn fact_of(graph: &Graph, log: &Log, reach: &NodeSet, reason: Reason) -> Option<Constraint>
    requires of { IsLogOf graph.now log.now }
    ensures { result ≡ fact (case_of graph.now log.now reach.now) reason }
{
    match reason {
        Reason::Zero { node } => zero(graph, node),
        Reason::Top { node } => top(graph, node),
        Reason::Unreached { node, horizon } => unreached(graph, log, reach, node, horizon),
        Reason::From { event } => from(graph, log, event),
        Reason::Upto { event } => upto(graph, log, event),
        Reason::Quiet { event, node } => quiet(graph, log, event, node),
        Reason::Pick { split: _, place: _ } => None,
    }
}

/// No time is before 0.
fn zero(graph: &Graph, node: u32) -> Option<Constraint>
    ensures { result ≡ then_some (nat_lt node (length graph.now.nodes)) (at_least node 0) }
{
    if node < graph.node_count() {
        Some(at_least(node, 0))
    } else {
        None
    }
}

/// No time is after never.
fn top(graph: &Graph, node: u32) -> Option<Constraint>
    ensures { result ≡ then_some (nat_lt node (length graph.now.nodes)) (at_most node (pos NEVER)) }
{
    if node < graph.node_count() {
        Some(at_most(node, NEVER))
    } else {
        None
    }
}

/// A node that the set does not reach is not active by a horizon up to now.
fn unreached(
    graph: &Graph,
    log: &Log,
    reach: &NodeSet,
    node: u32,
    horizon: u64,
) -> Option<Constraint>
    ensures { result ≡ then_some
        (nat_lt node (length graph.now.nodes)
        && (nat_le horizon (now_of log.now) && not (is_among reach.now node)))
        (at_least node (horizon + 1)) }
{
    if node < graph.node_count() && horizon <= now(log) && !is_among(reach, node) {
        Some(at_least(node, horizon + 1))
    } else {
        None
    }
}

/// The node of an alarm did not become active before the instants that the alarm leaves.
fn from(graph: &Graph, log: &Log, number: u32) -> Option<Constraint>
    requires { IsLogOf graph.now log.now }
    ensures { result ≡ option_and_then (from_alarm graph.now log.now) (event_at log.now number) }
{
    match find_event(graph, log, number)? {
        Event::Alarm { time, node } => {
            let interval = alarm_interval(graph, log, node, time)?;
            Some(at_least(node, interval.earliest))
        }
        Event::Silent { .. } | Event::Sweep { .. } | Event::Tick { .. } | Event::Mode { .. } =>
            None,
    }
}

/// The node of an alarm did not become active after the instants that the alarm leaves.
fn upto(graph: &Graph, log: &Log, number: u32) -> Option<Constraint>
    requires { IsLogOf graph.now log.now }
    ensures { result ≡ option_and_then (upto_alarm graph.now log.now) (event_at log.now number) }
{
    match find_event(graph, log, number)? {
        Event::Alarm { time, node } => {
            let interval = alarm_interval(graph, log, node, time)?;
            Some(at_most(node, interval.latest))
        }
        Event::Silent { .. } | Event::Sweep { .. } | Event::Tick { .. } | Event::Mode { .. } =>
            None,
    }
}

/// The instants that an alarm of the node at this time leaves for its activation. None of them is after the alarm.
fn alarm_interval(graph: &Graph, log: &Log, node: u32, time: u64) -> Option<Interval>
    requires node { node < length graph.now.nodes }
    ensures value { result ≡ alarm_interval graph.now log.now node time }
    ensures by_alarm { IfSome result
        (λ interval. (interval.earliest ≤ time) × (interval.latest ≤ time)) }
{
    log.alarm_interval(graph, node, time)
}

/// A node is not active up to the instant of which a silence of it says so.
fn quiet(graph: &Graph, log: &Log, event: u32, node: u32) -> Option<Constraint>
    requires { IsLogOf graph.now log.now }
    ensures { result ≡ option_map (λ time. at_least node (time + 1)) (quiet_at graph.now log.now event node) }
{
    let time = quiet_at(graph, log, event, node)?;
    Some(at_least(node, time + 1))
}

/// The instant up to which the event of this number says that the node is not active. The node is then one of the graph.
fn quiet_at(graph: &Graph, log: &Log, event: u32, node: u32) -> Option<u64>
    requires { IsLogOf graph.now log.now }
    ensures value { result ≡ quiet_at graph.now log.now event node }
    ensures small { IfSome result (λ time. (time ≤ MAX_TIME) × (node < MAX_NODES)) }
{
    graph.is_always_valid();
    log.is_always_ordered();
    log.quiet_at(graph, event, node)
}

/// The event of this number, where there is one.
fn find_event(graph: &Graph, log: &Log, number: u32) -> Option<Event>
    requires { IsLogOf graph.now log.now }
    ensures value { result ≡ event_at log.now number }
    ensures small { IfSome result (IsSmallAlarm graph.now) }
{
    graph.is_always_valid();
    log.is_always_ordered();
    log.find_event(number)
}

/// Whether it is one of the nodes.
fn is_among(nodes: &NodeSet, node: u32) -> bool
    ensures { result ≡ is_among nodes.now node }
{
    nodes.has(node)
}

/// The time of the last event, which is at most 10^12.
pub(crate) fn now(log: &Log) -> u64
    ensures now { result ≡ now_of log.now }
    ensures in_range { result ≤ MAX_TIME }
{
    log.is_always_ordered();
    log.now()
}
