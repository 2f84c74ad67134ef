//! Alarms that come too early: before the failure can have reached the node, by what the log says is not active. The bounds of nodes follow
//! forwards by the least delays, since a node becomes active only when the failure arrives (may clauses), and backwards by the greatest,
//! since it was not on its way where it would be due and is not there (must clauses). The event may also be a silence that comes too late,
//! which shows that an alarm before it came too early.
//!
//! [`proposed`](steps::proposed) makes the steps of a refutation, and promises nothing of them. The checker of refutations judges them, and
//! only where it closes their tree they are an outcome.

ghost use Rattle.std.specs.Prelude.{◌≡◌, [], IfOk, IfSome, IsTrue};
ghost use Rattle.tfpg_log.specs.Log.{IsLogOf};
ghost use Rattle.tfpg_clause.specs.Paths.{with_steps};
ghost use Rattle.tfpg_clause.specs.Trees.{IsRefutation, split_count};
ghost use Rattle.tfpg_whatif.specs.declared.outcome.Outcome.TheVariants.{Out};
ghost use Rattle.tfpg_whatif.specs.Outcomes.{HasOutcomeEvidence};
ghost use Rattle.tfpg_whatif.specs.inside.Asking.{IsSubject, case_asked};
ghost use Rattle.tfpg_whatif.specs.inside.Early.{HasTaken};

mod bounds;
mod closing;
mod due;
mod facts;
mod may;
mod needs;
mod steps;

use crate::asking::Subject;
use std::alloc::Global;
use steps::proposed;
use tfpg_base::NoMemory;
use tfpg_clause::split_count;
use tfpg_evidence::{Step, StepList};
use tfpg_graph::Graph;
use tfpg_kernel::{Checker, Taken};
use tfpg_log::Log;

/// How often at most the nodes are gone through for what follows from the bounds of others, for what has to be shown, and for what can be
/// shown, and over how many must clauses in a row a bound is looked up. Once is enough for the least delays where each edge goes to a
/// later node.
const PASSES: u32 = 8;

/// The refutation by an alarm that came too early, where there is one and some steps show it within the budget. It costs at most four
/// times [`PASSES`] passes over the nodes and the edges, with a look at the window of an edge where that could raise a bound, and what the
/// steps cost the checker: a split and a cycle for each span in which a node is shown not to be active, and for each edge by which the
/// failure could arrive there a cycle, or a split on a must clause with what closes its three alternatives. No more splits than the budget
/// are proposed.
pub(crate) fn refuted_early(
    alloc: Global,
    subject: &Subject<'_>,
) -> Result<Option<StepList>, NoMemory>
    requires { IsSubject subject.now }
    ensures { IfOk result (λ found. IfSome found (λ steps.
        HasOutcomeEvidence (case_asked subject.now) subject.now.hypothesis.set subject.now.budget (Out steps))) }
{
    match proposed(alloc, subject)? {
        Some(steps) => judged(alloc, subject, steps),
        None => Ok(None),
    }
}

/// The steps, where they are a refutation within the budget.
fn judged(
    alloc: Global,
    subject: &Subject<'_>,
    steps: StepList,
) -> Result<Option<StepList>, NoMemory>
    requires { IsSubject subject.now }
    ensures { IfOk result (λ found. IfSome found (λ steps.
        HasOutcomeEvidence (case_asked subject.now) subject.now.hypothesis.set subject.now.budget (Out steps))) }
{
    if split_count(steps.as_slice()) > subject.budget {
        return Ok(None);
    }
    if is_refutation(alloc, subject, steps.as_slice())? {
        Ok(Some(steps))
    } else {
        Ok(None)
    }
}

/// Whether the steps are a refutation, as the checker judges them.
fn is_refutation(alloc: Global, subject: &Subject<'_>, steps: &[Step]) -> Result<bool, NoMemory>
    requires { IsSubject subject.now }
    ensures { IfOk result (λ closed. IsTrue closed →
        IsRefutation (case_asked subject.now) (with_steps [] (case_asked subject.now).log steps.now)) }
{
    let mut checker = Checker::new(alloc, subject.reach);
    for step in steps {
        if !takes(&mut checker, subject.graph, subject.log, step)? {
            return Ok(false);
        }
    }
    Ok(checker.is_closed())
}

/// Whether the checker takes the step.
fn takes(checker: &mut Checker, graph: &Graph, log: &Log, step: &Step) -> Result<bool, NoMemory>
    requires { IsLogOf graph.now log.now }
    ensures { IfOk result (λ right. IsTrue right → HasTaken graph.now log.now step.now checker.old checker.new) }
{
    checker.reserve()?;
    match checker.take(graph, log, step) {
        Taken::Open => Ok(true),
        Taken::Closed => Ok(true),
        Taken::Bad(_) => Ok(false),
    }
}
