//! The steps of a hypothesis in a round.

ghost use Rattle.std.specs.Prelude.{◌≡◌, List, [], IfOk, MatchResult};
ghost use Rattle.tfpg_log.specs.Log.{IsLogOf};
ghost use Rattle.tfpg_clause.specs.Case.{case_of};
ghost use Rattle.tfpg_clause.specs.Trees.{Judged};
ghost use Rattle.tfpg_kernel.specs.Represents.{CheckerRepresents};
ghost use Rattle.tfpg_report.specs.ReadRounds.{HasLineForEachStep};
ghost use Rattle.tfpg_check.specs.Judging.{cause_of_step};
ghost use Rattle.tfpg_check.specs.Tests.{InTurn};
ghost use Rattle.tfpg_check.specs.inside.InTurn.{IsFaultOf};
ghost use Rattle.tfpg_check.specs.inside.Parts.{StepBreaks, IsTakenAs, HasTaken, broken_by};

use crate::cause::CheckCause;
use crate::round_fault::RoundFault;
use tfpg_base::NoMemory;
use tfpg_evidence::Step;
use tfpg_graph::Graph;
use tfpg_kernel::{BadStep, Checker, Taken};
use tfpg_log::Log;
use tfpg_report::Part;

/// Takes the steps of a part, by the log that its hypothesis sees. The first that breaks a condition is at fault.
pub(crate) fn take_steps(
    checker: &mut Checker,
    graph: &Graph,
    log: &Log,
    part: &Part,
) -> Result<(), RoundFault>
    requires of { IsLogOf graph.now log.now }
    requires lines { HasLineForEachStep part.now }
    ensures taken { (earlier : List Judged) → CheckerRepresents graph.now log.now checker.old earlier →
        MatchResult result
        (λ _. HasTaken (case_of graph.now log.now checker.old.reach) earlier part.now checker.new)
        (IsFaultOf (InTurn (StepBreaks (case_of graph.now log.now checker.old.reach) earlier part.now.step_lines)
        [] part.now.steps)) }
    ensures reach { checker.new.reach ≡ checker.old.reach }
{
    let steps = part.steps.as_slice();
    let lines = part.step_lines.as_slice();
    for index in 0..steps.len() {
        if let Some(broken) = take_step(checker, graph, log, &steps[index])? {
            return Err(RoundFault::NotAccepted {
                line: lines[index],
                cause: cause_of(broken),
            });
        }
    }
    Ok(())
}

/// Takes a step, or returns the condition that it breaks.
fn take_step(
    checker: &mut Checker,
    graph: &Graph,
    log: &Log,
    step: &Step,
) -> Result<Option<BadStep>, NoMemory>
    requires { IsLogOf graph.now log.now }
    ensures taken { (earlier : List Judged) → CheckerRepresents graph.now log.now checker.old earlier →
        IfOk result (IsTakenAs (case_of graph.now log.now checker.old.reach) earlier step.now checker.new) }
    ensures reach { checker.new.reach ≡ checker.old.reach }
{
    checker.reserve()?;
    Ok(broken_by(checker.take(graph, log, step)))
}

/// The condition that a bad step breaks.
fn broken_by(taken: Taken) -> Option<BadStep>
    ensures { result ≡ broken_by taken }
{
    match taken {
        Taken::Open => None,
        Taken::Closed => None,
        Taken::Bad(broken) => Some(broken),
    }
}

/// The cause for a step that breaks a condition.
fn cause_of(broken: BadStep) -> CheckCause
    ensures { result ≡ cause_of_step broken }
{
    match broken {
        BadStep::AfterClosed => CheckCause::AfterClosed,
        BadStep::NotReusable => CheckCause::NotReusable,
        BadStep::NotAClause => CheckCause::NotAClause,
        BadStep::NotAFact => CheckCause::NotAFact,
        BadStep::NotOnPath => CheckCause::NotOnPath,
        BadStep::Unchained => CheckCause::Unchained,
        BadStep::NotNegative => CheckCause::NotNegative,
    }
}
