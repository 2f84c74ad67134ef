//! The events of a log that a probed log keeps.

ghost use Rattle.std.specs.Prelude.{◌≡◌, ◌≤◌, ◌++◌, [], ◌∷◌, length, if◌then◌else◌, IfOk, OnOk};
ghost use Rattle.tfpg_graph.specs.declared.limits.TheConstants.{MAX_NODES};
ghost use Rattle.tfpg_log.specs.declared.event.Event.TheVariants as kinds;
ghost use Rattle.tfpg_predict.specs.Kept.{kept_events};
ghost use Rattle.tfpg_predict.specs.inside.KeptEvents.{is_at, last_alarm, is_kept_alarm, kept_by, silences_at};

use crate::last_silences::last_silences;
use std::alloc::Global;
use tfpg_base::NoMemory;
use tfpg_graph::Graph;
use tfpg_log::{Event, Log};

/// All changes of mode, the first and the last alarm of each node, and the last silence of each node.
pub(crate) fn kept_events(alloc: Global, graph: &Graph, log: &Log) -> Result<Vec<Event>, NoMemory>
    ensures { IfOk result (λ events. events.items ≡ kept_events graph.now log.now) }
{
    graph.is_always_valid();
    let last = last_silences(alloc, graph, log)?;
    let mut events = Vec::new(alloc);
    for index in 0..log.len() {
        let number = index + 1;
        keep(log, &last, number, log.event(number), &mut events)?;
    }
    Ok(events)
}

/// Appends what is kept of the event, which has this number.
fn keep(
    log: &Log,
    last: &[Option<u32>],
    number: u32,
    event: Event,
    into: &mut Vec<Event>,
) -> Result<(), NoMemory>
    requires { length last.now ≤ MAX_NODES }
    ensures { OnOk result (into.new.items ≡ into.old.items ++ kept_by log.now last.now number event) }
{
    match event {
        Event::Alarm { time, node } => keep_alarm(log, number, time, node, into),
        Event::Silent { time, .. } => keep_silences(last, number, time, into),
        Event::Sweep { time } => keep_silences(last, number, time, into),
        Event::Tick { .. } => Ok(()),
        Event::Mode { .. } => {
            into.push(event)?;
            Ok(())
        }
    }
}

/// Appends the alarm of this number, where it is the first or the last one of its node.
fn keep_alarm(
    log: &Log,
    number: u32,
    time: u64,
    node: u32,
    into: &mut Vec<Event>,
) -> Result<(), NoMemory>
    ensures { OnOk result (into.new.items ≡ into.old.items
        ++ (if is_kept_alarm log.now node number then kinds.Alarm time node ∷ [] else [])) }
{
    if is_kept_alarm(log, node, number) {
        into.push(Event::Alarm { time, node })?;
    }
    Ok(())
}

/// Whether the alarm of this number is the first or the last one of the node.
fn is_kept_alarm(log: &Log, node: u32, number: u32) -> bool
    ensures { result ≡ is_kept_alarm log.now node number }
{
    is_at(log.alarm_event(node), number) || is_at(last_alarm(log, node), number)
}

/// The number of the node's last alarm, where it has one.
fn last_alarm(log: &Log, node: u32) -> Option<u32>
    ensures { result ≡ last_alarm log.now node }
{
    log.last_alarm(node)
}

/// Appends a silence of each node of which the event of this number is the last silence.
fn keep_silences(
    last: &[Option<u32>],
    number: u32,
    time: u64,
    into: &mut Vec<Event>,
) -> Result<(), NoMemory>
    requires { length last.now ≤ MAX_NODES }
    ensures { OnOk result (into.new.items ≡ into.old.items ++ silences_at last.now number time) }
{
    for node in 0..last.len() {
        keep_silence(last[node], number, time, node as u32, into)?;
    }
    Ok(())
}

/// Appends a silence of the node, where its last silence has this number.
fn keep_silence(
    last: Option<u32>,
    number: u32,
    time: u64,
    node: u32,
    into: &mut Vec<Event>,
) -> Result<(), NoMemory>
    ensures { OnOk result (into.new.items ≡ into.old.items
        ++ (if is_at last number then kinds.Silent time node ∷ [] else [])) }
{
    if is_at(last, number) {
        into.push(Event::Silent { time, node })?;
    }
    Ok(())
}

/// Whether there is a number, and it is this one.
fn is_at(found: Option<u32>, number: u32) -> bool
    ensures { result ≡ is_at found number }
{
    match found {
        Some(other) => other == number,
        None => false,
    }
}
