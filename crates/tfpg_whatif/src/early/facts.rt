//! What the facts of a log state of one node.

use super::bounds::ProposedBound;
use tfpg_evidence::Reason;
use tfpg_graph::{Graph, NodeSet};
use tfpg_log::Log;

/// The upper bound that an alarm states of the time of its node, in milliseconds.
#[derive(Clone, Copy)]
pub(super) struct AlarmBound {
    pub(super) node: u32,
    /// The number of its event.
    pub(super) event: u32,
    pub(super) time: u64,
}

/// The greatest lower bound that the facts of the log state of a node, where the set reaches these nodes.
pub(super) fn stated_by_facts(
    graph: &Graph,
    log: &Log,
    reach: &NodeSet,
    node: u32,
) -> ProposedBound {
    if !reach.has(node) {
        let horizon = log.now();
        return ProposedBound {
            time: horizon.saturating_add(1),
            reason: Reason::Unreached { node, horizon },
        };
    }
    let by_alarm = after_alarm(graph, log, node).unwrap_or(from_zero(node));
    let by_silence = after_silence(graph, log, node).unwrap_or(from_zero(node));
    if by_alarm.time < by_silence.time {
        by_silence
    } else {
        by_alarm
    }
}

/// The lower bound that the last alarm of a node states.
fn after_alarm(graph: &Graph, log: &Log, node: u32) -> Option<ProposedBound> {
    let event = log.last_alarm(node)?;
    let time = log.find_event(event)?.time();
    let interval = log.alarm_interval(graph, node, time)?;
    Some(ProposedBound {
        time: interval.earliest,
        reason: Reason::From { event },
    })
}

/// The lower bound that the last silence of a node states.
fn after_silence(graph: &Graph, log: &Log, node: u32) -> Option<ProposedBound> {
    let event = log.last_quiet(graph, node)?;
    let until = log.quiet_at(graph, event, node)?;
    Some(ProposedBound {
        time: until.saturating_add(1),
        reason: Reason::Quiet { event, node },
    })
}

/// No time is before 0.
pub(super) fn from_zero(node: u32) -> ProposedBound {
    ProposedBound {
        time: 0,
        reason: Reason::Zero { node },
    }
}

/// The upper bound that the first alarm of a node states.
pub(super) fn upto_alarm(graph: &Graph, log: &Log, node: u32) -> Option<AlarmBound> {
    let event = log.alarm_event(node)?;
    let time = log.find_event(event)?.time();
    let interval = log.alarm_interval(graph, node, time)?;
    Some(AlarmBound {
        node,
        event,
        time: interval.latest,
    })
}
