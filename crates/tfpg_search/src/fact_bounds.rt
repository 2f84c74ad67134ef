//! The bounds that the facts of a log give the time of a node.

ghost use Rattle.std.specs.Prelude.{◌≡◌, ℕ, ◌<◌, ◌≤◌, ◌+◌, ◌⊎◌, List, pos, length, true, Some, None, IfSome, MatchOption, if◌then◌else◌, nat_lt};
ghost use Rattle.tfpg_base.specs.declared.limits.TheConstants.{NEVER};
ghost use Rattle.tfpg_evidence.specs.declared.reason.Reason.{Reason};
ghost use Rattle.tfpg_evidence.specs.declared.reason.Reason.TheVariants.{Zero, Unreached};
ghost use Rattle.tfpg_graph.specs.Graph.{Tfpg};
ghost use Rattle.tfpg_log.specs.declared.event.Event.TheVariants.{Alarm};
ghost use Rattle.tfpg_log.specs.declared.interval.Interval.{Interval};
ghost use Rattle.tfpg_log.specs.Log.{now_of, event_at, is_ignored, quiet_at};
ghost use Rattle.tfpg_search.specs.inside.Facts.{Leaves};
ghost use Rattle.tfpg_search.specs.inside.KeptReasons.{low_reason, high_reason};
ghost use Rattle.tfpg_base.specs.Bounds.{at_most, at_least};
ghost use Rattle.tfpg_clause.specs.Case.{case_of};
ghost use Rattle.tfpg_clause.specs.Facts.{fact};

use crate::kept_reason::{HighReason, LowReason};
use tfpg_base::NEVER;
use tfpg_graph::{Graph, NodeSet};
use tfpg_log::{Interval, Log};

/// A lower bound of the time of a node, in milliseconds, with what is kept of the fact that states it.
#[derive(Clone, Copy)]
pub(crate) struct LowBound {
    pub(crate) time: u64,
    pub(crate) reason: LowReason,
}

/// An upper bound of the time of a node, in milliseconds, with what is kept of the fact that states it.
#[derive(Clone, Copy)]
pub(crate) struct HighBound {
    pub(crate) time: u64,
    pub(crate) reason: HighReason,
}

/// The greatest lower bound that the facts of the log give the time of a node, where the set reaches these nodes. Takes
/// constant time.
pub(crate) fn low(graph: &Graph, log: &Log, reach: &NodeSet, node: u32) -> LowBound
    requires { node < length graph.now.nodes }
    ensures stated { fact (case_of graph.now log.now reach.now) (low_reason node result.time result.reason)
        ≡ Some (at_least node result.time) }
    ensures greatest { (other : Reason) (bound : ℕ) →
        fact (case_of graph.now log.now reach.now) other ≡ Some (at_least node bound) → bound ≤ result.time }
    ensures in_range { result.time ≤ NEVER }
{
    if !reach.has(node) {
        return after_now(log, node);
    }
    later(
        after_alarm(graph, log, node),
        after_silence(graph, log, node),
    )
}

/// The least upper bound that the facts of the log give the time of a node, whatever the set reaches. Takes constant time.
pub(crate) fn high(graph: &Graph, log: &Log, node: u32) -> HighBound
    requires { node < length graph.now.nodes }
    ensures stated { (reach : List ℕ) →
        fact (case_of graph.now log.now reach) (high_reason node result.reason)
        ≡ Some (at_most node (pos result.time)) }
    ensures least { (reach : List ℕ) (other : Reason) (bound : ℕ) →
        fact (case_of graph.now log.now reach) other ≡ Some (at_most node (pos bound)) → result.time ≤ bound }
    ensures in_range { result.time ≤ NEVER }
{
    log.is_always_ordered();
    match left_by(graph, log, node, log.alarm_event(node)) {
        Some((event, interval)) => HighBound {
            time: interval.latest,
            reason: HighReason::Upto(event),
        },
        None => HighBound {
            time: NEVER,
            reason: HighReason::Top,
        },
    }
}

/// A node that the set does not reach is not active by now, and no fact says more.
fn after_now(log: &Log, node: u32) -> LowBound
    ensures time { result.time ≡ now_of log.now + 1 }
    ensures reason { low_reason node result.time result.reason ≡ Unreached node (now_of log.now) }
    ensures greatest { (graph : Tfpg) (reach : List ℕ) (other : Reason) (bound : ℕ) →
        fact (case_of graph log.now reach) other ≡ Some (at_least node bound) → bound ≤ result.time }
    ensures in_range { result.time ≤ NEVER }
{
    log.is_always_ordered();
    let now = log.now();
    LowBound {
        time: now + 1,
        reason: LowReason::Unreached,
    }
}

/// The lower bound that the last alarm of a node gives it: its greatest lag before. It is 0 for a node without an alarm
/// that says anything.
fn after_alarm(graph: &Graph, log: &Log, node: u32) -> LowBound
    requires { node < length graph.now.nodes }
    ensures stated { (reach : List ℕ) →
        fact (case_of graph.now log.now reach) (low_reason node result.time result.reason)
        ≡ Some (at_least node result.time) }
    ensures greatest { (number : ℕ) (interval : Interval) → Leaves graph.now log.now node number interval →
        interval.earliest ≤ result.time }
    ensures in_range { result.time ≤ NEVER }
{
    log.is_always_ordered();
    match left_by(graph, log, node, log.last_alarm(node)) {
        Some((event, interval)) => LowBound {
            time: interval.earliest,
            reason: LowReason::From(event),
        },
        None => from_zero(node),
    }
}

/// The alarm of the node, by its number, and the instants that it leaves for the node's activation, where there is one, and
/// it leaves any.
fn left_by(graph: &Graph, log: &Log, node: u32, alarm: Option<u32>) -> Option<(u32, Interval)>
    requires { IfSome alarm (λ number. (time : ℕ) × (event_at log.now number ≡ Some (Alarm time node))) }
    ensures { MatchOption result
        ((alarm ≡ None) ⊎ (is_ignored log.now node ≡ true))
        (λ left. (alarm ≡ Some left.0) × Leaves graph.now log.now node left.0 left.1) }
{
    let number = alarm?;
    let time = log.find_event(number)?.time();
    let interval = log.alarm_interval(graph, node, time)?;
    Some((number, interval))
}

/// The lower bound that the last event gives a node which says that it is not active: just after the instant up to which it
/// says so. It is 0 where no event says so.
fn after_silence(graph: &Graph, log: &Log, node: u32) -> LowBound
    requires { node < length graph.now.nodes }
    ensures stated { (reach : List ℕ) →
        fact (case_of graph.now log.now reach) (low_reason node result.time result.reason)
        ≡ Some (at_least node result.time) }
    ensures greatest { (number until : ℕ) → quiet_at graph.now log.now number node ≡ Some until →
        until + 1 ≤ result.time }
    ensures in_range { result.time ≤ NEVER }
{
    match last_quiet(graph, log, node) {
        Some((event, until)) => LowBound {
            time: until + 1,
            reason: LowReason::Quiet(event),
        },
        None => from_zero(node),
    }
}

/// The last event that says that the node is not active, by its number, and the instant up to which it says so, where there
/// is one.
fn last_quiet(graph: &Graph, log: &Log, node: u32) -> Option<(u32, u64)>
    ensures last { MatchOption result
        ((number until : ℕ) → quiet_at graph.now log.now number node ≡ Some until → ⊥)
        (λ last. (quiet_at graph.now log.now last.0 node ≡ Some last.1)
        × ((number until : ℕ) → quiet_at graph.now log.now number node ≡ Some until → until ≤ last.1)) }
    ensures in_range { IfSome result (λ last. last.1 < NEVER) }
{
    log.is_always_ordered();
    let event = log.last_quiet(graph, node)?;
    let until = log.quiet_at(graph, event, node)?;
    Some((event, until))
}

/// No time is before 0.
fn from_zero(node: u32) -> LowBound
    ensures time { result.time ≡ 0 }
    ensures reason { low_reason node result.time result.reason ≡ Zero node }
{
    LowBound {
        time: 0,
        reason: LowReason::Zero,
    }
}

/// The later of two lower bounds.
fn later(one: LowBound, other: LowBound) -> LowBound
    ensures either { result ≡ (if nat_lt one.time other.time then other else one) }
    ensures one { one.time ≤ result.time }
    ensures other { other.time ≤ result.time }
{
    if one.time < other.time { other } else { one }
}
