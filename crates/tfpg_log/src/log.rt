//! The log of accepted lines, with its look-ups.

ghost use Rattle.std.specs.Prelude.{◌≡◌, ◌≤◌, ◌<◌, ◌-◌, ℕ, length, take, true, ◌&&◌, if◌then◌else◌, nat_le, Some, None, is_none, IfOk, count_by, option_and_then, slice_get};
ghost use Rattle.tfpg_log.specs.Log.{IsLogOf, IsOrdered, now_of, event_at, alarm_of, alarm_event, alarm_among, mode_at, ignoring, is_ignored, alarm_interval, inactive_until, silence_at, quiet_at, is_mode_change};
ghost use Rattle.tfpg_log.specs.Spans.{span_number, span_at, window_round, window_of, joint_of};
ghost use Rattle.tfpg_log.specs.inside.ActiveModes.{has_mode};
ghost use Rattle.tfpg_log.specs.declared.limits.TheConstants.{MAX_EVENTS, MAX_MODE_CHANGES};
ghost use Rattle.tfpg_log.specs.LogOfLines.{new_log};
ghost use Rattle.tfpg_log.specs.Quiet.{IsLastQuiet};
ghost use Rattle.tfpg_log.specs.LastAlarm.{IsLastAlarm};
ghost use Rattle.tfpg_log.specs.inside.NodeEvents.{IsLast, IsNodeEvents, IsSilence, IsSwept, later_of};
ghost use Rattle.tfpg_graph.specs.Graph.{Tfpg, is_monitored};

mod accepting;

use crate::active_modes::{ActiveModes, modes_into};
use crate::event::Event;
use crate::interval::Interval;
use crate::limits::{MAX_EVENTS, MAX_MODE_CHANGES};
use crate::mode_change::ModeChange;
use crate::node_events::NodeEvents;
use crate::span::{Span, Window};
use crate::spans::{mode_of_span, span_in, span_number};
use crate::windows::window_round;
use std::alloc::Global;
use std::marker::Model;
use tfpg_base::{Doubts, NoMemory};
use tfpg_graph::Graph;

/// The events that were accepted so far, numbered from 1, and with them the time. A new log is of every graph.
///
/// No look-up takes memory, and most take constant time. Those of the mode and of the span of an instant take time
/// logarithmic in the number of mode changes. Those of windows go through the spans of the window, and for all edges into a
/// node at once also through these edges.
#[derive(Drop)]
pub struct Log {
    events: Vec<Event>,
    /// Which events bound when each node became active. A node past the end has none.
    nodes: Vec<NodeEvents>,
    /// The number of the last sweep.
    last_sweep: Option<u32>,
    /// The changes of mode among the events that begin a span.
    changes: Vec<ModeChange>,
    /// How many events are changes of mode.
    change_count: u32,
    /// The nodes whose monitors are ignored.
    ignored: Doubts,
}

impl Model for Log {
    ghost use Rattle.tfpg_log.specs.Log.{Logbook};

    ghost Value = { Logbook };

    ghost use Rattle.tfpg_log.specs.inside.LogIndex.{IsLogIndex};

    ghost view = { λ log. record { events = log.events.items; ignored = log.ignored } };

    ghost invariant = { λ log. IsLogIndex
        (record { events = log.events.items; ignored = log.ignored }) log.nodes.items log.last_sweep log.changes.items log.change_count };
}

impl Log {
    /// The log without events. It ignores no monitor. Takes no memory.
    pub fn new(alloc: Global) -> Log
        ensures empty { result ≡ new_log }
        ensures of { (graph : Tfpg) → IsLogOf graph result }
    {
        Log {
            events: Vec::new(alloc),
            nodes: Vec::new(alloc),
            last_sweep: None,
            changes: Vec::new(alloc),
            change_count: 0,
            ignored: Doubts::empty(),
        }
    }

    /// The time of the last event, in milliseconds, and 0 for a log without events.
    pub fn now(&self) -> u64
        ensures { result ≡ now_of self.now }
    {
        match self.events.last() {
            Some(event) => event.time(),
            None => 0,
        }
    }

    /// How many events it has: at most [`MAX_EVENTS`](crate::MAX_EVENTS). Their times never fall, and none is above
    /// [`MAX_TIME`](tfpg_base::MAX_TIME).
    pub fn len(&self) -> u32
        ensures len { result ≡ length self.now.events }
        ensures ordered { IsOrdered self.now }
    {
        self.events.len() as u32
    }

    /// Does nothing: brings into a proof that the log is ordered.
    pub fn is_always_ordered(&self)
        ensures { IsOrdered self.now }
    {
        let _opened = &self.events;
    }

    /// Does nothing: brings into a proof that the log has at most [`MAX_EVENTS`](crate::MAX_EVENTS) events, and among them at
    /// most [`MAX_MODE_CHANGES`](crate::MAX_MODE_CHANGES) changes of mode.
    pub fn is_always_within_limits(&self)
        ensures events { length self.now.events ≤ MAX_EVENTS }
        ensures changes { count_by is_mode_change self.now.events ≤ MAX_MODE_CHANGES }
    {
        let _opened = &self.events;
    }

    /// The event of this number. Numbers begin with 1.
    pub fn event(&self, number: u32) -> Event
        requires low { 1 ≤ number }
        requires high { number ≤ length self.now.events }
        ensures { event_at self.now number ≡ Some result }
    {
        self.events[number as usize - 1]
    }

    /// The event of this number, where there is one. The number may be any.
    pub fn find_event(&self, number: u32) -> Option<Event>
        ensures { result ≡ event_at self.now number }
    {
        let index = number.checked_sub(1)?;
        self.events.get(index as usize).copied()
    }

    /// The time of the node's first alarm, in milliseconds, where it has one. The node may be any number.
    pub fn alarm_of(&self, node: u32) -> Option<u64>
        ensures { result ≡ alarm_of self.now node }
    {
        match self.alarm_event(node) {
            Some(number) => Some(self.event(number).time()),
            None => None,
        }
    }

    /// The number of the event that is the node's first alarm, where it has one. The node may be any number.
    pub fn alarm_event(&self, node: u32) -> Option<u32>
        ensures { result ≡ alarm_event self.now node }
    {
        self.node_events(node).first_alarm
    }

    /// The number of the event that is the node's last alarm, where it has one. The node may be any number.
    pub fn last_alarm(&self, node: u32) -> Option<u32>
        ensures { IsLastAlarm self.now node result }
    {
        self.node_events(node).last_alarm
    }

    /// The mode of an instant, in milliseconds: that of the last change whose time is below it, and else mode 0. Takes
    /// time logarithmic in the number of mode changes.
    pub fn mode_at(&self, instant: u64) -> u32
        ensures { result ≡ mode_at self.now instant }
    {
        mode_of_span(&self.changes, span_number(&self.changes, instant))
    }

    /// The number of the span of an instant, in milliseconds: how many times the mode changed from one instant to the
    /// next up to it. There is none of an instant after now. Takes time logarithmic in the number of mode changes.
    pub fn span_of(&self, instant: u64) -> Option<u32>
        ensures { result ≡ (if nat_le instant (now_of self.now)
            then Some (span_number self.now instant) else None) }
    {
        if instant > self.now() {
            return None;
        }
        Some(span_number(&self.changes, instant) as u32)
    }

    /// The span of this number, of the instants up to a horizon in milliseconds. There is none where the horizon is after
    /// now, or where the span does not begin by it.
    pub fn span(&self, number: u32, horizon: u64) -> Option<Span>
        ensures { result ≡ span_at self.now number horizon }
    {
        if horizon > self.now() {
            return None;
        }
        span_in(&self.changes, number as usize, horizon)
    }

    /// The window of an edge round the span of this number, of the instants up to a horizon in milliseconds: the maximal
    /// run of spans in whose modes the edge is active. There is none where there is no such span, or the edge is not active
    /// in its mode. Goes through the spans of the window.
    pub fn window_of(&self, graph: &Graph, edge: u32, number: u32, horizon: u64) -> Option<Window>
        requires { edge < length graph.now.edges }
        ensures { result ≡ option_and_then
            (λ e. window_of self.now e number horizon) (slice_get graph.now.edges edge) }
    {
        let modes = ActiveModes::OfEdge(graph.edge(edge));
        self.window_round(&modes, number, horizon)
    }

    /// The same for all edges into the node at once: the maximal run of spans in whose modes each of them is active. There
    /// is none where there is no such span, or one of them is not active in its mode. Goes through these edges, and
    /// through the spans of the window.
    pub fn joint_of(&self, graph: &Graph, node: u32, number: u32, horizon: u64) -> Option<Window>
        requires { node < length graph.now.nodes }
        ensures { result ≡ joint_of graph.now self.now node number horizon }
    {
        let modes = modes_into(graph, node);
        self.window_round(&modes, number, horizon)
    }

    /// The instants at which a node became active, as an alarm of it at this time says: at least its least lag before, and
    /// at most its greatest. An alarm of an ignored node says nothing. Times are in milliseconds, and the node may be
    /// any number.
    pub fn alarm_interval(&self, graph: &Graph, node: u32, time: u64) -> Option<Interval>
        ensures { result ≡ alarm_interval graph.now self.now node time }
    {
        if self.is_ignored(node) {
            return None;
        }
        let lag = graph.lag_or_zero(node);
        Some(Interval {
            earliest: time.saturating_sub(lag.most),
            latest: time.saturating_sub(lag.least),
        })
    }

    /// The instant up to which a node is not active, as a silence of it at this time says: its least lag before. A silence
    /// says nothing where there is no such instant, nor where the node is ignored. Times are in milliseconds, and the
    /// node may be any number.
    pub fn inactive_until(&self, graph: &Graph, node: u32, time: u64) -> Option<u64>
        ensures { result ≡ inactive_until graph.now self.now node time }
    {
        let until = time.checked_sub(graph.lag_or_zero(node).least)?;
        (!self.is_ignored(node)).then_some(until)
    }

    /// Ignores these nodes' monitors from now on, and no other's: their alarms and silences say nothing. Takes no memory.
    pub fn ignore(&mut self, doubts: Doubts)
        ensures { self.new ≡ ignoring self.old doubts }
    {
        self.ignored = doubts;
    }

    /// The nodes whose monitors are ignored.
    pub fn ignored(&self) -> Doubts
        ensures { result ≡ self.now.ignored }
    {
        self.ignored
    }

    /// The instant, in milliseconds, up to which the event of this number says that the node is not active. There is none
    /// where the event is no silence of the node, or says nothing. Numbers begin with 1. Number and node may be any.
    pub fn quiet_at(&self, graph: &Graph, number: u32, node: u32) -> Option<u64>
        ensures { result ≡ quiet_at graph.now self.now number node }
    {
        let time = self.silence_at(graph, number, node)?;
        self.inactive_until(graph, node, time)
    }

    /// The time of the event of this number, in milliseconds, where it is a silence of the node: its own silence, or a
    /// sweep, where the node is monitored and no event before is an alarm of it. Numbers begin with 1. Number and node may
    /// be any: there is no event of another number, and another node is not monitored.
    pub fn silence_at(&self, graph: &Graph, number: u32, node: u32) -> Option<u64>
        ensures { result ≡ silence_at graph.now self.now number node }
    {
        match self.find_event(number)? {
            Event::Silent { time, node: silent } => (silent == node).then_some(time),
            Event::Sweep { time } => self.is_swept(graph, number, node).then_some(time),
            Event::Alarm { .. } | Event::Tick { .. } | Event::Mode { .. } => None,
        }
    }

    /// The number of the last event that says that the node is not active up to an instant, where there is one. Times
    /// never fall, so no other such event speaks of a later instant. The node may be any number.
    pub fn last_quiet(&self, graph: &Graph, node: u32) -> Option<u32>
        ensures { IsLastQuiet graph.now self.now node result }
    {
        self.is_always_ordered();
        let number = self.last_silence(graph, node)?;
        match self.quiet_at(graph, number, node) {
            Some(_) => Some(number),
            None => None,
        }
    }

    /// The number of the last event that is a silence of the node, where there is one: its own silence, or a sweep, where
    /// the node is monitored and no event before is an alarm of it.
    fn last_silence(&self, graph: &Graph, node: u32) -> Option<u32>
        ensures { IsLast (IsSilence graph.now self.now node) result }
    {
        later_of(self.node_events(node).silence, self.last_swept(graph, node))
    }

    /// Whether the node's monitor is ignored.
    fn is_ignored(&self, node: u32) -> bool
        ensures { result ≡ is_ignored self.now node }
    {
        self.ignored.has(node)
    }

    /// A copy of the log, with the allocator that the log keeps. Takes time and memory linear in the log, and in the
    /// greatest number of a node that has an alarm or a silence of its own.
    pub fn copy(&self) -> Result<Log, NoMemory>
        ensures { IfOk result (λ log. log ≡ self.now) }
    {
        let events = self.events.clone()?;
        let nodes = self.nodes.clone()?;
        let changes = self.changes.clone()?;
        Ok(Log {
            events,
            nodes,
            last_sweep: self.last_sweep,
            changes,
            change_count: self.change_count,
            ignored: self.ignored,
        })
    }

    /// The window, of spans with these modes, round the span of this number up to a horizon.
    fn window_round(&self, modes: &ActiveModes, number: u32, horizon: u64) -> Option<Window>
        ensures { result ≡ option_and_then
            (λ span. window_round self.now
            (λ instant. has_mode modes.now (mode_at self.now instant)) span horizon)
            (span_at self.now number horizon) }
    {
        if horizon > self.now() {
            return None;
        }
        window_round(&self.changes, modes, number, horizon)
    }

    /// Whether it takes no further event.
    pub(crate) fn is_full(&self) -> bool
        ensures { result ≡ nat_le MAX_EVENTS (length self.now.events) }
    {
        self.len() >= MAX_EVENTS
    }

    /// Whether it takes no further change of mode.
    pub(crate) fn has_all_mode_changes(&self) -> bool
        ensures { result ≡ nat_le MAX_MODE_CHANGES (count_by is_mode_change self.now.events) }
    {
        self.change_count >= MAX_MODE_CHANGES
    }

    /// Which events bound when the node became active. The node may be any number.
    fn node_events(&self, node: u32) -> NodeEvents
        ensures { IsNodeEvents self.now node result }
    {
        match self.nodes.get(node as usize) {
            Some(events) => *events,
            None => NodeEvents::none(),
        }
    }

    /// The number of the last sweep that is a silence of the node: the last one of all, or before its first alarm, if it has one.
    fn last_swept(&self, graph: &Graph, node: u32) -> Option<u32>
        ensures { IsLast (IsSwept graph.now self.now node) result }
    {
        if !graph.is_monitored(node) {
            return None;
        }
        let events = self.node_events(node);
        match events.first_alarm {
            Some(_) => events.sweep,
            None => self.last_sweep,
        }
    }

    /// Whether a sweep of this number is a silence of the node.
    fn is_swept(&self, graph: &Graph, number: u32, node: u32) -> bool
        ensures { result ≡ (is_monitored graph.now node
            && is_none (alarm_among (take (number - 1) self.now.events) node)) }
    {
        graph.is_monitored(node) && self.is_without_alarm(number.saturating_sub(1), node)
    }

    /// Whether none of so many first events is an alarm of the node.
    fn is_without_alarm(&self, count: u32, node: u32) -> bool
        ensures { result ≡ is_none (alarm_among (take count self.now.events) node) }
    {
        match self.alarm_event(node) {
            Some(number) => count < number,
            None => true,
        }
    }
}

/// The later of two events, by their numbers, where there are any.
fn later_of(one: Option<u32>, other: Option<u32>) -> Option<u32>
    ensures { result ≡ later_of one other }
{
    match (one, other) {
        (Some(first), Some(second)) => Some(first.max(second)),
        (Some(first), None) => Some(first),
        (None, _) => other,
    }
}
