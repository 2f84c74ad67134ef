//! The steps of a round, hypothesis by hypothesis.

ghost use Rattle.std.specs.Prelude.{◌≡◌, ◌≢◌, ◌↔◌, ◌≤◌, ◌<◌, ℕ, List, [], length, All, MatchResult, IsOk, IsTrue, slice_get};
ghost use Rattle.tfpg_base.specs.declared.terms.Terms.{Terms};
ghost use Rattle.tfpg_log.specs.Log.{IsLogOf};
ghost use Rattle.tfpg_hyp.specs.Hypotheses.{IsTableOf};
ghost use Rattle.tfpg_report.specs.ReadRounds.{HasLineForEachStep};
ghost use Rattle.tfpg_report.specs.declared.read_round.Part.{Part as PartRead};
ghost use Rattle.tfpg_check.specs.HypothesesState.{KeepsBasis};
ghost use Rattle.tfpg_check.specs.Judging.{RoundBasis, PartFails};
ghost use Rattle.tfpg_check.specs.Tests.{InTurn};
ghost use Rattle.tfpg_check.specs.inside.InTurn.{IsFaultOf};
ghost use Rattle.tfpg_check.specs.inside.Parts.{kept_of, IsNextAfter, IsUnfinished, MayTake, KeepsNumber, IsPartTaken, ArePartsTaken};

use crate::cause::CheckCause;
use crate::round::steps::take_steps;
use crate::round_fault::RoundFault;
use tfpg_base::Doubts;
use tfpg_graph::Graph;
use tfpg_hyp::Table;
use tfpg_kernel::Checker;
use tfpg_log::Log;
use tfpg_report::Part;

/// Takes the steps of each part in turn. Their numbers rise, each is in the table, and none was rejected in an earlier round.
/// Costs what the steps cost.
pub(crate) fn judge_parts(
    table: &Table,
    checkers: &mut [Checker],
    graph: &Graph,
    log: &mut Log,
    parts: &[Part],
) -> Result<(), RoundFault>
    requires of { IsLogOf graph.now log.old }
    requires ignores { log.old.ignored ≡ [] }
    requires table { (terms : Terms) × IsTableOf graph.now terms table.now }
    requires one_each { length checkers.old ≡ length table.now.hypotheses }
    requires lines { All HasLineForEachStep parts.now }
    ensures taken { (basis : RoundBasis) → basis.graph ≡ graph.now → basis.log ≡ log.old →
        KeepsBasis basis basis.log (kept_of basis.terms table.now checkers.old) →
        MatchResult result
        (λ _. ArePartsTaken basis parts.now (kept_of basis.terms table.now checkers.new))
        (IsFaultOf (InTurn (PartFails basis) [] parts.now)) }
    ensures log { log.new ≡ log.old }
{
    let mut next = 0;
    for part in parts {
        judge_part(table, checkers, graph, log, next, part)?;
        next = u64::from(part.number) + 1;
    }
    Ok(())
}

/// Takes the steps of a part, whose number may be `next` or more.
fn judge_part(
    table: &Table,
    checkers: &mut [Checker],
    graph: &Graph,
    log: &mut Log,
    next: u64,
    part: &Part,
) -> Result<(), RoundFault>
    requires of { IsLogOf graph.now log.old }
    requires ignores { log.old.ignored ≡ [] }
    requires table { (terms : Terms) × IsTableOf graph.now terms table.now }
    requires one_each { length checkers.old ≡ length table.now.hypotheses }
    requires lines { HasLineForEachStep part.now }
    ensures taken { (basis : RoundBasis) (before : List PartRead) → basis.graph ≡ graph.now → basis.log ≡ log.old →
        basis.hypotheses ≡ table.now.hypotheses → IsNextAfter (λ part. part.number) before next →
        (next ≤ part.now.number → KeepsNumber basis (kept_of basis.terms table.now checkers.old) part.now.number) →
        MatchResult result
        (λ _. IsPartTaken basis before part.now (kept_of basis.terms table.now checkers.new))
        (IsFaultOf (PartFails basis before part.now)) }
    ensures next { IsOk result → next ≤ part.now.number }
    ensures others { (number : ℕ) → number ≢ part.now.number →
        slice_get checkers.new number ≡ slice_get checkers.old number }
    ensures log { log.new ≡ log.old }
{
    if !may_have_steps(checkers, next, part.number) {
        return Err(RoundFault::NotAccepted {
            line: part.first_line,
            cause: CheckCause::WrongHypothesis,
        });
    }
    log.ignore(table.doubts(part.number));
    let taken = take_steps(&mut checkers[part.number as usize], graph, log, part);
    log.ignore(Doubts::empty());
    taken
}

/// Whether the number is `next` or more, and there is a checker of it whose tree is not closed.
fn may_have_steps(checkers: &[Checker], next: u64, number: u32) -> bool
    ensures { IsTrue result ↔ MayTake checkers.now next number }
{
    next <= u64::from(number) && is_unfinished(checkers, number)
}

/// Whether there is a checker of this number, and its tree is not closed.
fn is_unfinished(checkers: &[Checker], number: u32) -> bool
    ensures { IsTrue result ↔ IsUnfinished checkers.now number }
{
    match checkers.get(number as usize) {
        Some(checker) => !checker.is_closed(),
        None => false,
    }
}
