//! Outcomes that the last event shows at once, without a search.

ghost use Rattle.std.specs.Prelude.{◌≡◌, ◌↔◌, ℕ, List, IfOk, IfSome, IsTrue, Some};
ghost use Rattle.tfpg_log.specs.Log.{Logbook, IsLogOf, with_event};
ghost use Rattle.tfpg_log.specs.Rules.{IsActive};
ghost use Rattle.tfpg_log.specs.inside.ShownByLookUp.{IsActivatedIn, KeepsInterval, KeepsInactive};
ghost use Rattle.tfpg_clause.specs.Case.{case_of};
ghost use Rattle.tfpg_whatif.specs.Outcomes.{HasOutcomeEvidence};
ghost use Rattle.tfpg_whatif.specs.inside.Asking.{IsShown};
ghost use Rattle.tfpg_whatif.specs.inside.AtOnce.{ExplainsBefore, IsKept, IsLatestUnreached, ShowsAnswer, unreached_steps};

use crate::asking::LastEvent;
use crate::outcome::Outcome;
use std::alloc::Global;
use tfpg_base::{NoMemory, Trace};
use tfpg_evidence::{Reason, Reasons, Step, StepList};
use tfpg_graph::{Graph, NodeSet};
use tfpg_log::{Event, Interval, Log};

/// The outcome of the hypothesis at this index, by the log as it sees it, where the last event shows it at once. An alarm of a node
/// that is not reached refutes the hypothesis. A trace that explained the log before a silence or an alarm explains it still, where it
/// shows the event. It costs a look at the trace, and a copy of it.
pub(crate) fn outcome_at_once(
    alloc: Global,
    graph: &Graph,
    log: &Log,
    reach: &NodeSet,
    last: &LastEvent<'_>,
    index: usize,
) -> Result<Option<Outcome>, NoMemory>
    requires { IsLogOf graph.now log.now }
    ensures { (earlier : Logbook) (set : List ℕ) (budget : ℕ) → log.now ≡ with_event earlier last.now.event →
        ExplainsBefore graph.now earlier set last.now index →
        IfOk result (λ found. IfSome found (IsShown (case_of graph.now log.now reach.now) set budget)) }
{
    if let Some(steps) = refuted_by_alarm(alloc, graph, log, reach, last.event)? {
        return Ok(Some(Outcome::Out(steps)));
    }
    match kept_trace(graph, log, last, index)? {
        Some(trace) => Ok(Some(Outcome::Fits(trace))),
        None => Ok(None),
    }
}

/// The refutation by an alarm of a node that is not reached, where the event is one.
fn refuted_by_alarm(
    alloc: Global,
    graph: &Graph,
    log: &Log,
    reach: &NodeSet,
    event: Event,
) -> Result<Option<StepList>, NoMemory>
    requires { IsLogOf graph.now log.now }
    ensures { (earlier : Logbook) (set : List ℕ) (budget : ℕ) → log.now ≡ with_event earlier event →
        IfOk result (λ found. IfSome found (λ steps.
        HasOutcomeEvidence (case_of graph.now log.now reach.now) set budget (Outcome.Out steps))) }
{
    let Event::Alarm { time, node } = event else {
        return Ok(None);
    };
    let Some(latest) = latest_unreached(graph, log, reach, node, time) else {
        return Ok(None);
    };
    let steps = unreached_steps(alloc, node, latest, log.len())?;
    Ok(Some(steps))
}

/// The last instant at which a node became active, as an alarm of it at this time says, where the node is not reached.
fn latest_unreached(graph: &Graph, log: &Log, reach: &NodeSet, node: u32, time: u64) -> Option<u64>
    ensures { IfSome result (IsLatestUnreached graph.now log.now reach.now node time) }
{
    if reach.has(node) {
        return None;
    }
    let interval = log.alarm_interval(graph, node, time)?;
    Some(interval.latest)
}

/// The one cycle of a node that is not reached and not active by an instant, and was active by then, as the alarm of this event says.
fn unreached_steps(alloc: Global, node: u32, horizon: u64, event: u32) -> Result<StepList, NoMemory>
    ensures { IfOk result (λ steps. steps ≡ unreached_steps node horizon event) }
{
    let mut reasons = Reasons::new(alloc);
    reasons.push(Reason::Unreached { node, horizon })?;
    reasons.push(Reason::Upto { event })?;
    let mut steps = StepList::new(alloc);
    steps.push(Step::Cycle(reasons))?;
    Ok(steps)
}

/// The trace that is known from before the last event of the hypothesis at this index, where it shows the event.
fn kept_trace(
    graph: &Graph,
    log: &Log,
    last: &LastEvent<'_>,
    index: usize,
) -> Result<Option<Trace>, NoMemory>
    ensures { IfOk result (λ kept. IfSome kept (IsKept graph.now log.now last.now index)) }
{
    let Some(Outcome::Fits(trace)) = last.before.get(index) else {
        return Ok(None);
    };
    if !shows_answer(graph, log, trace, last.event) {
        return Ok(None);
    }
    let copy = trace.copy()?;
    Ok(Some(copy))
}

/// Whether the event is a silence or an alarm that the trace shows.
fn shows_answer(graph: &Graph, log: &Log, trace: &Trace, event: Event) -> bool
    ensures { IsTrue result → ShowsAnswer graph.now log.now trace.now event }
{
    match event {
        Event::Silent { time, node } => shows_silence(graph, log, trace, node, time),
        Event::Alarm { time, node } => {
            graph.is_monitored(node) && shows_alarm(graph, log, trace, node, time)
        }
        Event::Sweep { time: _ } => false,
        Event::Tick { time: _ } => false,
        Event::Mode { time: _, mode: _ } => false,
    }
}

/// Whether the trace shows what a silence of the node at this time says.
fn shows_silence(graph: &Graph, log: &Log, trace: &Trace, node: u32, time: u64) -> bool
    ensures { IsTrue result → KeepsInactive graph.now log.now trace.now node time }
{
    match log.inactive_until(graph, node, time) {
        Some(until) => !is_active(trace, node, until),
        None => true,
    }
}

/// Whether the node is active at the instant.
fn is_active(trace: &Trace, node: u32, instant: u64) -> bool
    ensures { IsTrue result ↔ IsActive trace.now node instant }
{
    match trace.at(node) {
        Some(time) => time <= instant,
        None => false,
    }
}

/// Whether the trace shows what an alarm of the node at this time says.
fn shows_alarm(graph: &Graph, log: &Log, trace: &Trace, node: u32, time: u64) -> bool
    ensures { IsTrue result → KeepsInterval graph.now log.now trace.now node time }
{
    match log.alarm_interval(graph, node, time) {
        Some(interval) => is_activated_in(trace, node, interval),
        None => true,
    }
}

/// Whether the node became active at one of the instants.
fn is_activated_in(trace: &Trace, node: u32, interval: Interval) -> bool
    ensures { IsTrue result ↔ IsActivatedIn trace.now node interval }
{
    match trace.at(node) {
        Some(active) => interval.earliest <= active && active <= interval.latest,
        None => false,
    }
}
