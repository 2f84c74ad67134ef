//! The reasons of a cycle at a leaf.

ghost use Rattle.std.specs.Prelude.{◌≡◌, MatchResult};
ghost use Rattle.std.specs.Option.{ok_or};
ghost use Rattle.tfpg_log.specs.Log.{IsLogOf};
ghost use Rattle.tfpg_kernel.specs.Breaks.{fault_of, CycleBreaks};
ghost use Rattle.tfpg_clause.specs.Case.{case_of};
ghost use Rattle.tfpg_clause.specs.Trees.{stated, IsClosedBy};
ghost use Rattle.tfpg_clause.specs.Paths.{chosen_on};

use crate::chain::Chain;
use crate::taken::BadStep;
use tfpg_base::Constraint;
use tfpg_clause::{PathSplit, stated};
use tfpg_evidence::Reason;
use tfpg_graph::{Graph, NodeSet};
use tfpg_log::Log;

/// Whether the reasons close the leaf of this path, or else the first condition that they break.
pub(crate) fn check_cycle(
    graph: &Graph,
    log: &Log,
    reach: &NodeSet,
    path: &[PathSplit],
    reasons: &[Reason],
) -> Result<(), BadStep>
    requires of { IsLogOf graph.now log.now }
    ensures { MatchResult result
        (λ _. IsClosedBy (stated (case_of graph.now log.now reach.now) (chosen_on path.now)) reasons.now)
        (CycleBreaks (stated (case_of graph.now log.now reach.now) (chosen_on path.now)) reasons.now) }
{
    let mut chain = Chain::EMPTY;
    for reason in reasons {
        let constraint = stated_or_fault(graph, log, reach, path, *reason)?;
        chain = chain.with(constraint);
    }
    match chain.fault() {
        None => Ok(()),
        Some(fault) => Err(BadStep::from(fault)),
    }
}

/// The constraint that the reason states at the leaf of this path, or else what is wrong with it.
fn stated_or_fault(
    graph: &Graph,
    log: &Log,
    reach: &NodeSet,
    path: &[PathSplit],
    reason: Reason,
) -> Result<Constraint, BadStep>
    requires of { IsLogOf graph.now log.now }
    ensures { result
        ≡ ok_or (stated (case_of graph.now log.now reach.now) (chosen_on path.now) reason) (fault_of reason) }
{
    stated(graph, log, reach, path, reason).ok_or(fault_of(reason))
}

/// What is wrong with a reason that states no constraint.
fn fault_of(reason: Reason) -> BadStep
    ensures { result ≡ fault_of reason }
{
    match reason {
        Reason::Pick { .. } => BadStep::NotOnPath,
        _ => BadStep::NotAFact,
    }
}
