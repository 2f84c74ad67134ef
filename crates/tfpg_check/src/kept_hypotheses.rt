//! What the judge keeps of the hypotheses between two rounds, and how a round is judged by it.

ghost use Rattle.std.specs.Prelude.{◌≡◌, ◌≤◌, ◌<◌, ◌↔◌, ℕ, [], All, IfOk, OnOk, MatchResult, Err};
ghost use Rattle.tfpg_base.specs.declared.limits.TheConstants.{MAX_DOUBT};
ghost use Rattle.tfpg_log.specs.Log.{Logbook, GoesOn, IsLogOf};
ghost use Rattle.tfpg_hyp.specs.Hypotheses.{HasHypotheses, IsTableOf};
ghost use Rattle.tfpg_hyp.specs.declared.limits.TheConstants.{MAX_HYPOTHESES};
ghost use Rattle.tfpg_check.specs.HypothesesState.{KeepsBasis};
ghost use Rattle.tfpg_check.specs.inside.AfterRound.{after_round};
ghost use Rattle.tfpg_check.specs.Judging.{RoundBasis, RoundFails, BeginsWell};
ghost use Rattle.tfpg_check.specs.inside.ReadRoundOf.{IsReadRoundOf, IsRankedLineOf};
ghost use Rattle.tfpg_check.specs.Tests.{Owes};
ghost use Rattle.tfpg_check.specs.declared.cause.CheckCause.{CheckCause as CauseOf};
ghost use Rattle.tfpg_check.specs.declared.cause.CheckCause.TheVariants as cause;
ghost use Rattle.tfpg_check.specs.Passing.{RoundPasses};
ghost use Rattle.tfpg_check.specs.inside.InTurn.{IsFailure, IsFaultOf};
ghost use Rattle.tfpg_check.specs.inside.Lookups.{IsLookupOf};
ghost use Rattle.tfpg_check.specs.inside.Kept.{AreNewCheckers, AreFlagsBefore, PassesRest, RestFails};
ghost use Rattle.tfpg_check.specs.inside.KeptFlags.{AreKept, AddsNothing};
ghost use Rattle.tfpg_check.specs.HypothesesState.{HypothesesState};

use crate::cause::CheckCause;
use crate::kept_flags::{KeptFlags, are_all_flagged, numbers_of, unchanged_by};
use crate::round::counts::{are_right_counts, count_raised};
use crate::round::largest_parts::LargestParts;
use crate::round::lookup::{RoundLookup, closed_flags, named_flags, part_indexes, ranked_flags};
use crate::round::parts::judge_parts;
use crate::round::ranked::judge_ranked;
use crate::round::rejected::judge_rejected;
use crate::round::statuses::each_has_status;
use crate::round::unsettled::judge_open;
use crate::round_fault::{FailedTest, RoundFault};
use std::alloc::Global;
use std::marker::Model;
use tfpg_base::{NoMemory, Terms};
use tfpg_graph::Graph;
use tfpg_hyp::laws::subsets_stand_before_their_supersets;
use tfpg_hyp::{Table, TableFault};
use tfpg_kernel::Checker;
use tfpg_log::Log;
use tfpg_report::ReadRound;

/// The hypotheses of a report, with what is kept of each between two rounds: its largest proper parts, the checker of its steps so
/// far, and what the last round has shown of it.
#[derive(Drop)]
pub(crate) struct KeptHypotheses {
    alloc: Global,
    terms: Terms,
    table: Table,
    largest_parts: LargestParts,
    checkers: Vec<Checker>,
    /// What the last round has shown of each, if it passed.
    flags: Option<KeptFlags>,
}

impl Model for KeptHypotheses {
    ghost use Rattle.std.specs.Prelude.{◌≡◌, length, IfSome};
    ghost use Rattle.tfpg_check.specs.HypothesesState.{HypothesesState};
    ghost use Rattle.tfpg_check.specs.inside.LargestParts.{ListsLargestParts};
    ghost use Rattle.tfpg_check.specs.inside.KeptFlags.{AreKept};

    ghost Value = { HypothesesState };

    ghost view = { λ kept. record { terms = kept.terms; table = kept.table; checkers = kept.checkers.items } };

    ghost invariant = { λ kept.
        (length kept.checkers.items ≡ length kept.table.hypotheses)
        × ListsLargestParts kept.table.hypotheses kept.largest_parts
        × IfSome kept.flags (AreKept kept.table.hypotheses kept.checkers.items) };
}

impl KeptHypotheses {
    /// What is kept before the first round, for all hypotheses of a graph on these terms. Where there are more than
    /// [`MAX_HYPOTHESES`](tfpg_hyp::MAX_HYPOTHESES) of them, the fault says how many. Looks once at each two hypotheses.
    pub(crate) fn new(
        alloc: Global,
        graph: &Graph,
        terms: Terms,
    ) -> Result<KeptHypotheses, TableFault>
        requires doubt { terms.doubt ≤ MAX_DOUBT }
        ensures keeps { IfOk result (λ kept. (basis : RoundBasis) (log : Logbook) → basis.graph ≡ graph.now →
            basis.terms ≡ terms → basis.hypotheses ≡ kept.table.hypotheses →
            ((number : ℕ) → basis.steps number ≡ []) → KeepsBasis basis log kept) }
        ensures table { IfOk result (λ kept. IsTableOf graph.now kept.terms kept.table) }
        ensures terms { IfOk result (λ kept. kept.terms ≡ terms) }
        ensures too_many { (count : ℕ) → (result ≡ Err (TableFault.TooMany count)) ↔
            ((MAX_HYPOTHESES < count) × HasHypotheses graph.now terms count) }
        ensures few { OnOk result ((count : ℕ) → HasHypotheses graph.now terms count → count ≤ MAX_HYPOTHESES) }
    {
        let table = Table::new(alloc, graph, terms.k, terms.doubt)?;
        let largest_parts = LargestParts::new(alloc, &table)?;
        let checkers = new_checkers(alloc, &table)?;
        Ok(KeptHypotheses {
            alloc,
            terms,
            table,
            largest_parts,
            checkers,
            flags: None,
        })
    }

    /// Judges a round of the report, for this line of the log, by the log with the event of that line. Where no test fails its
    /// steps are kept. Else what is kept is of no more use.
    ///
    /// It costs what the steps and traces cost, and a pass over the hypotheses with a look at the largest proper parts of each. A
    /// round without steps that ranks the same hypotheses as the one before costs what its lines and traces cost.
    pub(crate) fn judge_round(
        &mut self,
        graph: &Graph,
        log: &mut Log,
        read: &ReadRound,
        line: u64,
    ) -> Result<(), RoundFault>
        requires of { IsLogOf graph.now log.old }
        requires ignores { log.old.ignored ≡ [] }
        requires table { IsTableOf graph.now self.old.terms self.old.table }
        requires lines { IsReadRoundOf graph.now read.now }
        ensures passes { (basis : RoundBasis) (earlier : Logbook) → basis.graph ≡ graph.now → basis.log ≡ log.old →
            GoesOn earlier log.old → KeepsBasis basis earlier self.old →
            OnOk result (RoundPasses basis line read.entry.now) }
        ensures keeps { (basis : RoundBasis) (earlier : Logbook) → basis.graph ≡ graph.now → basis.log ≡ log.old →
            GoesOn earlier log.old → KeepsBasis basis earlier self.old →
            OnOk result (KeepsBasis (after_round basis read.entry.now) basis.log self.new) }
        ensures fails { (basis : RoundBasis) (earlier : Logbook) → basis.graph ≡ graph.now → basis.log ≡ log.old →
            GoesOn earlier log.old → KeepsBasis basis earlier self.old →
            (at : ℕ) (why : CauseOf) → result ≡ Err (RoundFault.NotAccepted at why) →
            RoundFails basis line read.entry.now at why }
        ensures log { log.new ≡ log.old }
        ensures terms { self.new.terms ≡ self.old.terms }
        ensures table { self.new.table ≡ self.old.table }
    {
        log.is_always_ordered();
        judge_first_line(log, read, line)?;
        if let Some(flags) = unchanged_by(&self.flags, read) {
            return judge_unchanged(graph, &self.table, self.terms.budget, flags, log, read);
        }
        self.flags = None;
        let was_closed = closed_flags(self.alloc, &self.checkers)?;
        judge_parts(
            &self.table,
            &mut self.checkers,
            graph,
            log,
            read.parts.as_slice(),
        )?;
        let flags = self.judge_statuses(graph, log, read, &was_closed)?;
        self.flags = Some(flags);
        Ok(())
    }

    /// Judges what a round says of each hypothesis, once its steps are taken: what it has shown of each.
    fn judge_statuses(
        &self,
        graph: &Graph,
        log: &mut Log,
        read: &ReadRound,
        was_closed: &[bool],
    ) -> Result<KeptFlags, RoundFault>
        requires of { IsLogOf graph.now log.old }
        requires ignores { log.old.ignored ≡ [] }
        requires table { IsTableOf graph.now self.now.terms self.now.table }
        requires lines { IsReadRoundOf graph.now read.now }
        ensures rest { (basis : RoundBasis) → basis.graph ≡ graph.now → basis.log ≡ log.old →
            KeepsBasis (after_round basis read.entry.now) basis.log self.now → AreFlagsBefore basis was_closed.now →
            MatchResult result (λ _. PassesRest basis read.entry.now) (IsFaultOf (RestFails basis read.entry.now)) }
        ensures kept { IfOk result (AreKept self.now.table.hypotheses self.now.checkers) }
        ensures log { log.new ≡ log.old }
    {
        subsets_stand_before_their_supersets();
        let count = self.table.len();
        let closed = closed_flags(self.alloc, &self.checkers)?;
        let closed_count = count_raised(&closed);
        let ranked = ranked_flags(self.alloc, count, read.ranked.as_slice())?;
        let part_ranked = self.largest_parts.flagged(self.alloc, &ranked)?;
        let unsettled = named_flags(self.alloc, count, read.unsettled.as_slice())?;
        let parts = part_indexes(self.alloc, count, read.parts.as_slice())?;
        let lookup = RoundLookup {
            graph,
            table: &self.table,
            budget: self.terms.budget,
            read,
            was_closed,
            closed: &closed,
            closed_count,
            ranked: &ranked,
            part_ranked: &part_ranked,
            are_all_flagged: false,
            unsettled: &unsettled,
            parts: &parts,
        };
        judge_rest(&lookup, log)?;
        let numbers = numbers_of(self.alloc, read.ranked.as_slice())?;
        let all_flagged = are_all_flagged(count, &closed, &ranked, &part_ranked);
        Ok(KeptFlags {
            numbers,
            closed,
            closed_count,
            ranked,
            part_ranked,
            are_all_flagged: all_flagged,
        })
    }
}

/// Judges a round that adds nothing to what the last one has shown, by these flags.
fn judge_unchanged(
    graph: &Graph,
    table: &Table,
    budget: u64,
    flags: &KeptFlags,
    log: &mut Log,
    read: &ReadRound,
) -> Result<(), RoundFault>
    requires of { IsLogOf graph.now log.old }
    requires ignores { log.old.ignored ≡ [] }
    requires lines { IsReadRoundOf graph.now read.now }
    requires nothing { AddsNothing flags.now read.now }
    ensures rest { (basis : RoundBasis) (state : HypothesesState) → basis.graph ≡ graph.now → basis.log ≡ log.old →
        KeepsBasis (after_round basis read.entry.now) basis.log state →
        state.table ≡ table.now → state.terms.budget ≡ budget →
        AreKept table.now.hypotheses state.checkers flags.entry.now → AreFlagsBefore basis flags.entry.now.closed.items →
        MatchResult result (λ _. PassesRest basis read.entry.now) (IsFaultOf (RestFails basis read.entry.now)) }
    ensures log { log.new ≡ log.old }
{
    let lookup = RoundLookup {
        graph,
        table,
        budget,
        read,
        was_closed: &flags.closed,
        closed: &flags.closed,
        closed_count: flags.closed_count,
        ranked: &flags.ranked,
        part_ranked: &flags.part_ranked,
        are_all_flagged: flags.are_all_flagged,
        unsettled: &[],
        parts: &[],
    };
    judge_rest(&lookup, log)?;
    Ok(())
}

/// Tests the first line of a round.
fn judge_first_line(log: &Log, read: &ReadRound, line: u64) -> Result<(), FailedTest>
    ensures { (basis : RoundBasis) → basis.log ≡ log.now →
        MatchResult result (λ _. BeginsWell basis line read.entry.now)
        (IsFailure (Owes (BeginsWell basis line read.entry.now) read.entry.now.first_line cause.WrongRound)) }
{
    if read.number == log.len() && read.line == line && read.now == log.now() {
        return Ok(());
    }
    Err(FailedTest {
        line: read.first_line,
        cause: CheckCause::WrongRound,
    })
}

/// The tests after those of the steps, in their order.
fn judge_rest(lookup: &RoundLookup<'_>, log: &mut Log) -> Result<(), FailedTest>
    requires of { IsLogOf lookup.now.graph.now log.old }
    requires ignores { log.old.ignored ≡ [] }
    requires lines { All (IsRankedLineOf lookup.now.graph.now) lookup.now.read.now.ranked }
    ensures rest { (basis : RoundBasis) → IsLookupOf basis lookup.now → basis.log ≡ log.old →
        MatchResult result (λ _. PassesRest basis lookup.now.read.now)
        (IsFailure (RestFails basis lookup.now.read.now)) }
    ensures log { log.new ≡ log.old }
{
    judge_ranked(lookup, log)?;
    judge_open(lookup)?;
    judge_rejected(lookup)?;
    if !each_has_status(lookup) {
        return Err(FailedTest {
            line: lookup.read.counts_line,
            cause: CheckCause::WrongStatus,
        });
    }
    if !are_right_counts(lookup) {
        return Err(FailedTest {
            line: lookup.read.counts_line,
            cause: CheckCause::WrongCounts,
        });
    }
    Ok(())
}

/// A checker that took no step for each hypothesis of a table.
fn new_checkers(alloc: Global, table: &Table) -> Result<Vec<Checker>, NoMemory>
    ensures { IfOk result (λ checkers. AreNewCheckers table.now.reaches checkers.items) }
{
    let mut checkers = Vec::with_capacity(alloc, table.len() as usize)?;
    for number in 0..table.len() {
        checkers.push(Checker::new(alloc, *table.reach(number)))?;
    }
    Ok(checkers)
}
