//! The open hypotheses of a round.

ghost use Rattle.std.specs.Prelude.{◌≡◌, ◌↔◌, ◌≤◌, List, [], MatchResult, IsOk, IsTrue};
ghost use Rattle.tfpg_report.specs.declared.read_round.NamedSet.{NamedSet as NamedRead};
ghost use Rattle.tfpg_clause.specs.Trees.{split_count};
ghost use Rattle.tfpg_check.specs.Judging.{RoundBasis, MayBeOpen, OpenFails};
ghost use Rattle.tfpg_check.specs.Tests.{InTurn, HoldInTurn};
ghost use Rattle.tfpg_check.specs.inside.InTurn.{IsFailure};
ghost use Rattle.tfpg_check.specs.inside.Parts.{IsNextAfter};
ghost use Rattle.tfpg_check.specs.inside.Lookups.{IsLookupOf};
ghost use Rattle.tfpg_check.specs.inside.Named.{IsLeftOpen, steps_found};

use crate::cause::CheckCause;
use crate::round::lookup::RoundLookup;
use crate::round_fault::FailedTest;
use tfpg_clause::split_count;
use tfpg_report::NamedSet;

/// Tests each open hypothesis in turn.
pub(crate) fn judge_open(lookup: &RoundLookup<'_>) -> Result<(), FailedTest>
    ensures { (basis : RoundBasis) → IsLookupOf basis lookup.now →
        MatchResult result
        (λ _. HoldInTurn (MayBeOpen basis lookup.now.read.now) lookup.now.read.now.unsettled)
        (IsFailure (InTurn (OpenFails basis lookup.now.read.now) [] lookup.now.read.now.unsettled)) }
{
    let mut next = 0;
    for named in lookup.read.unsettled.as_slice() {
        judge_line(lookup, next, named)?;
        next = u64::from(named.number) + 1;
    }
    Ok(())
}

/// Tests an open hypothesis, whose number may be `next` or more.
fn judge_line(lookup: &RoundLookup<'_>, next: u64, named: &NamedSet) -> Result<(), FailedTest>
    ensures unsettled { (basis : RoundBasis) (before : List NamedRead) → IsLookupOf basis lookup.now →
        IsNextAfter (λ named. named.number) before next →
        MatchResult result
        (λ _. MayBeOpen basis lookup.now.read.now before named.now)
        (IsFailure (OpenFails basis lookup.now.read.now before named.now)) }
    ensures next { IsOk result → next ≤ named.now.number }
{
    if !may_be_open(lookup, next, named) {
        return Err(FailedTest {
            line: named.first_line,
            cause: CheckCause::WrongOpen,
        });
    }
    Ok(())
}

/// Whether the line says what is right: numbers rise, it names a hypothesis of the table whose tree is not closed, neither it
/// nor a proper part of it is ranked, and the whole budget was spent on it.
fn may_be_open(lookup: &RoundLookup<'_>, next: u64, named: &NamedSet) -> bool
    ensures { IsTrue result ↔ IsLeftOpen lookup.now next named.now }
{
    next <= u64::from(named.number)
        && lookup.is_listed(named.number, named.hypothesis())
        && !lookup.is_closed(named.number)
        && !lookup.is_ranked(named.number)
        && !lookup.has_ranked_part(named.number)
        && splits_of(lookup, named.number) == lookup.budget
}

/// How many splits the hypothesis of a number has in this round.
fn splits_of(lookup: &RoundLookup<'_>, number: u32) -> u64
    ensures { result ≡ split_count (steps_found lookup.now number) }
{
    match lookup.part(number) {
        Some(part) => split_count(part.steps.as_slice()),
        None => 0,
    }
}
