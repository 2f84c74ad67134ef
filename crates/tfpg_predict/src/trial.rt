//! The search for a probe with a bound.

ghost use Rattle.std.specs.Prelude.{◌≡◌, ◌≤◌, [], IfOk};
ghost use Rattle.tfpg_predict.specs.Probed.{IsProbed};
ghost use Rattle.tfpg_predict.specs.inside.Quests.{asked_by, IsQuest};
ghost use Rattle.tfpg_predict.specs.inside.Tried.{IsTried, IsFoundAs};

use crate::probed_log::{ProbedLog, probed};
use crate::quest::Quest;
use crate::without_probe::without_probe;
use std::alloc::Global;
use std::sync::ledger::Ledger;
use tfpg_base::{NoMemory, Steps, Trace};
use tfpg_evidence::StepList;
use tfpg_search::{Found, Search};

/// What the search for a probe with a bound found.
#[derive(Drop)]
pub(crate) enum Tried {
    /// A trace that explains the continued log, and activates the node by the bound.
    Fits(Trace),
    /// None does so: the steps are a refutation.
    Out(StepList),
    /// The budget was spent on these steps.
    Spent(StepList),
}

/// Searches for a trace that explains the continued log and activates the node by the bound, in milliseconds.
pub(crate) fn try_bound<L: Ledger>(
    alloc: Global,
    quest: &Quest<'_>,
    bound: u64,
    work: &mut Steps<L>,
) -> Result<Tried, NoMemory>
    requires quest { IsQuest quest.now }
    requires bound { bound ≤ quest.now.to }
    ensures { IfOk result (IsTried (asked_by quest.now) quest.now.hypothesis.set quest.now.budget bound) }
{
    let mut probed = probed(alloc, quest.graph, quest.log, quest.node, quest.to, bound)?;
    probed.log.ignore(quest.doubts());
    let mut steps = StepList::new(alloc);
    let found = search(alloc, quest, &probed, bound, &mut steps, work)?;
    match found {
        Found::Shown(trace) => {
            let rest = without_probe(alloc, &trace, probed.probe)?;
            Ok(Tried::Fits(rest))
        }
        Found::Closed => Ok(Tried::Out(steps)),
        Found::Spent => Ok(Tried::Spent(steps)),
    }
}

/// Searches for a trace that explains the probed log.
fn search<L: Ledger>(
    alloc: Global,
    quest: &Quest<'_>,
    probed: &ProbedLog,
    bound: u64,
    steps: &mut StepList,
    work: &mut Steps<L>,
) -> Result<Found, NoMemory>
    requires quest { IsQuest quest.now }
    requires bound { bound ≤ quest.now.to }
    requires probed { IsProbed (asked_by quest.now) bound probed.now.graph probed.now.log }
    requires steps { steps.old ≡ [] }
    ensures { IfOk result (IsFoundAs (asked_by quest.now) quest.now.hypothesis.set quest.now.budget bound steps.new) }
{
    quest.graph.is_always_valid();
    quest.log.is_always_ordered();
    probed.graph.is_always_valid();
    probed.log.is_always_ordered();
    let set = quest.set();
    let reach = probed.graph.reach(set);
    let mut search = Search::new(alloc, &probed.graph, set, reach)?;
    let found = search.round(&probed.graph, &probed.log, quest.budget, steps, work)?;
    Ok(found)
}
