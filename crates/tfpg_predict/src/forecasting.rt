//! The least time at which a node becomes active, by halving.

ghost use Rattle.std.specs.Prelude.{◌≡◌, ◌≤◌, ◌<◌, All, IsTrue, Some, IfOk};
ghost use Rattle.tfpg_base.specs.Trace.{time_of};
ghost use Rattle.tfpg_graph.specs.Graph.{AreFailures, is_monitored};
ghost use Rattle.tfpg_log.specs.Log.{ignoring};
ghost use Rattle.tfpg_log.specs.Rules.{IsActive};
ghost use Rattle.tfpg_predict.specs.LeastTime.{lookahead_of};
ghost use Rattle.tfpg_predict.specs.Probed.{IsProbeable};
ghost use Rattle.tfpg_predict.specs.Outlooks.{IsOutlook};
ghost use Rattle.tfpg_predict.specs.inside.Quests.{asked_by, IsQuest};
ghost use Rattle.tfpg_predict.specs.inside.Tried.{IsHalved};

use crate::outlook::Outlook;
use crate::quest::Quest;
use crate::trial::{Tried, try_bound};
use std::alloc::Global;
use std::sync::ledger::Ledger;
use tfpg_base::{Doubts, Hypothesis, NoMemory, Set, Steps, Trace};
use tfpg_evidence::StepList;
use tfpg_graph::Graph;
use tfpg_log::Log;

/// When at the earliest the node becomes active, by the traces that explain the log, continued to a time, from the set, where the
/// doubted monitors are ignored. The time is in milliseconds. No refutation has more than `budget` splits.
///
/// It halves the range up to that time, with one search for each bound. After a trace the range ends at the time that the trace
/// gives the node, so few searches are needed: at most 41.
pub fn forecast<L: Ledger>(
    alloc: Global,
    graph: &Graph,
    log: &Log,
    set: Set,
    doubts: Doubts,
    node: u32,
    to: u64,
    budget: u64,
    work: &mut Steps<L>,
) -> Result<Outlook, NoMemory>
    requires probeable { IsProbeable (lookahead_of graph.now log.now node to) }
    requires members { AreFailures graph.now set }
    requires doubts { All (λ monitor. IsTrue (is_monitored graph.now monitor)) doubts }
    requires budget { 1 ≤ budget }
    ensures { IfOk result (IsOutlook (lookahead_of graph.now (ignoring log.now doubts) node to) set budget) }
{
    let quest = Quest {
        graph,
        log,
        hypothesis: Hypothesis { set, doubts },
        node,
        to,
        budget,
    };
    match try_bound(alloc, &quest, to, work)? {
        Tried::Fits(trace) => {
            let high = time_in(&trace, node, to);
            halve(alloc, &quest, 0, high, trace, StepList::new(alloc), work)
        }
        Tried::Out(steps) => Ok(Outlook::Never { steps }),
        Tried::Spent(steps) => Ok(Outlook::Unsettled { bound: to, steps }),
    }
}

/// Halves the range from `low` to `high`, the time that the trace gives the node. Below `low` it has no time.
fn halve<L: Ledger>(
    alloc: Global,
    quest: &Quest<'_>,
    low: u64,
    high: u64,
    trace: Trace,
    earlier: StepList,
    work: &mut Steps<L>,
) -> Result<Outlook, NoMemory>
    requires quest { IsQuest quest.now }
    requires halved { IsHalved quest.now low high trace earlier }
    ensures { IfOk result (IsOutlook (asked_by quest.now) quest.now.hypothesis.set quest.now.budget) }
{
    if low >= high {
        return Ok(Outlook::Earliest {
            time: high,
            trace,
            earlier,
        });
    }
    let bound = low + (high - low) / 2;
    match try_bound(alloc, quest, bound, work)? {
        Tried::Fits(other) => {
            let time = time_in(&other, quest.node, bound);
            halve(alloc, quest, low, time, other, earlier, work)
        }
        Tried::Out(steps) => halve(alloc, quest, bound + 1, high, trace, steps, work),
        Tried::Spent(steps) => Ok(Outlook::Unsettled { bound, steps }),
    }
}

/// The time that the trace gives the node, which is at most the bound.
fn time_in(trace: &Trace, node: u32, bound: u64) -> u64
    requires { IsActive trace.now node bound }
    ensures at { time_of trace.now node ≡ Some result }
    ensures by_bound { result ≤ bound }
{
    match trace.at(node) {
        Some(time) => time,
        None => bound,
    }
}
