//! The ranked hypotheses of a round.

ghost use Rattle.std.specs.Prelude.{◌≡◌, ◌↔◌, ◌≤◌, ◌<◌, List, [], length, All, MatchResult, IsOk, IsTrue};
ghost use Rattle.tfpg_log.specs.Log.{IsLogOf};
ghost use Rattle.tfpg_log.specs.Explains.{Explains};
ghost use Rattle.tfpg_hyp.specs.Views.{log_for};
ghost use Rattle.tfpg_report.specs.declared.read_round.RankedLine.{RankedLine as RankedRead};
ghost use Rattle.tfpg_report.specs.ReadRounds.{hypothesis_ranked};
ghost use Rattle.tfpg_check.specs.inside.ReadRoundOf.{IsRankedLineOf};
ghost use Rattle.tfpg_check.specs.Judging.{RoundBasis, RankedFails, key_read};
ghost use Rattle.tfpg_check.specs.Tests.{InTurn, HoldInTurn};
ghost use Rattle.tfpg_check.specs.Passing.{RankedPasses};
ghost use Rattle.tfpg_check.specs.inside.InTurn.{IsFailure};
ghost use Rattle.tfpg_check.specs.inside.Lookups.{IsLookupOf};
ghost use Rattle.tfpg_check.specs.inside.RankedKeys.{IsLastOf, IsFractionOf, ComesAfter, HasRobustness, SaysRight};

use crate::cause::CheckCause;
use crate::round::lookup::RoundLookup;
use crate::round_fault::FailedTest;
use tfpg_base::Doubts;
use tfpg_graph::Graph;
use tfpg_hyp::laws::the_ranking_order_is_total;
use tfpg_hyp::{Fraction, Place, before, cost, robust};
use tfpg_log::Log;
use tfpg_report::RankedLine;
use tfpg_trace::{Verdict, explains};

/// Tests each ranked hypothesis in turn: what its line says, and then its trace.
pub(crate) fn judge_ranked(lookup: &RoundLookup<'_>, log: &mut Log) -> Result<(), FailedTest>
    requires of { IsLogOf lookup.now.graph.now log.old }
    requires ignores { log.old.ignored ≡ [] }
    requires lines { All (IsRankedLineOf lookup.now.graph.now) lookup.now.read.now.ranked }
    ensures ranked { (basis : RoundBasis) → IsLookupOf basis lookup.now → basis.log ≡ log.old →
        MatchResult result
        (λ _. HoldInTurn (RankedPasses basis lookup.now.read.now) lookup.now.read.now.ranked)
        (IsFailure (InTurn (RankedFails basis lookup.now.read.now) [] lookup.now.read.now.ranked)) }
    ensures log { log.new ≡ log.old }
{
    the_ranking_order_is_total();
    let mut last = None;
    for r in lookup.read.ranked.as_slice() {
        judge_line(lookup, log, last, r)?;
        last = Some(key_of(r));
    }
    Ok(())
}

/// Tests a ranked hypothesis. The key is that of the one before.
fn judge_line(
    lookup: &RoundLookup<'_>,
    log: &mut Log,
    last: Option<Place>,
    r: &RankedLine,
) -> Result<(), FailedTest>
    requires of { IsLogOf lookup.now.graph.now log.old }
    requires ignores { log.old.ignored ≡ [] }
    requires line { IsRankedLineOf lookup.now.graph.now r.now }
    requires last { IsFractionOf last }
    ensures ranked { (basis : RoundBasis) (earlier : List RankedRead) → IsLookupOf basis lookup.now →
        basis.log ≡ log.old → IsLastOf earlier last →
        MatchResult result
        (λ _. RankedPasses basis lookup.now.read.now earlier r.now)
        (IsFailure (RankedFails basis lookup.now.read.now earlier r.now)) }
    ensures log { log.new ≡ log.old }
    ensures fraction { IsOk result → 1 ≤ r.now.monitored }
{
    if !may_be_ranked(lookup, log, last, r) {
        return Err(FailedTest {
            line: r.first_line,
            cause: CheckCause::WrongRanked,
        });
    }
    if !is_explained(lookup.graph, log, r) {
        return Err(FailedTest {
            line: r.first_line,
            cause: CheckCause::NotATrace,
        });
    }
    Ok(())
}

/// Whether the line says what is right: it names a hypothesis of the table whose tree is not closed, with its cost and its
/// robustness, it comes after the one before, and no proper part of it is ranked.
fn may_be_ranked(lookup: &RoundLookup<'_>, log: &Log, last: Option<Place>, r: &RankedLine) -> bool
    requires line { IsRankedLineOf lookup.now.graph.now r.now }
    requires last { IsFractionOf last }
    ensures right { IsTrue result ↔ SaysRight lookup.now log.now last r.now }
    ensures fraction { IsTrue result → 1 ≤ r.now.monitored }
{
    lookup.is_listed(r.number, r.hypothesis())
        && !lookup.is_closed(r.number)
        && cost(lookup.graph, r.set, r.doubts) == r.cost
        && has_robustness(lookup, log, r)
        && comes_after(last, key_of(r))
        && !lookup.has_ranked_part(r.number)
}

/// Whether the robustness is that of the hypothesis of this number, by its reach. Goes once over the nodes.
fn has_robustness(lookup: &RoundLookup<'_>, log: &Log, r: &RankedLine) -> bool
    ensures robust { IsTrue result ↔ HasRobustness lookup.now log.now r.now }
    ensures fraction { IsTrue result → 1 ≤ r.now.monitored }
{
    if r.number >= lookup.table.len() {
        return false;
    }
    let reach = lookup.table.reach(r.number);
    let found = robust(lookup.graph, log, reach, r.doubts);
    found.alarmed == r.alarmed && found.monitored == r.monitored
}

/// Whether the key comes after the last one, if there is one.
fn comes_after(last: Option<Place>, key: Place) -> bool
    requires last { IsFractionOf last }
    requires key { 1 ≤ key.robust.monitored }
    ensures { IsTrue result ↔ ComesAfter last key }
{
    match last {
        Some(earlier) => before(&earlier, &key),
        None => true,
    }
}

/// What a ranked line says of its place in the order.
fn key_of(r: &RankedLine) -> Place
    ensures { result ≡ key_read r.now }
{
    Place {
        cost: r.cost,
        robust: Fraction {
            alarmed: r.alarmed,
            monitored: r.monitored,
        },
        number: r.number,
    }
}

/// Whether the trace explains what the hypothesis sees of the log.
fn is_explained(graph: &Graph, log: &mut Log, r: &RankedLine) -> bool
    requires of { IsLogOf graph.now log.old }
    requires ignores { log.old.ignored ≡ [] }
    requires line { IsRankedLineOf graph.now r.now }
    ensures explains { IsTrue result ↔
        Explains graph.now (log_for log.old (hypothesis_ranked r.now)) r.now.set r.now.trace }
    ensures log { log.new ≡ log.old }
{
    log.ignore(r.doubts);
    let verdict = explains(graph, log, r.set, &r.trace);
    log.ignore(Doubts::empty());
    verdict == Verdict::Yes
}
