//! The rejected hypotheses of a round.

ghost use Rattle.std.specs.Prelude.{◌≡◌, ◌↔◌, ◌<◌, ℕ, [], length, map, MatchResult, IsTrue, slice_get};
ghost use Rattle.tfpg_check.specs.declared.cause.CheckCause.TheVariants as cause;
ghost use Rattle.tfpg_check.specs.Judging.{RoundBasis, AreNewlyClosed, RejectedFails, named_hypothesis};
ghost use Rattle.tfpg_check.specs.inside.InTurn.{IsFailure};
ghost use Rattle.tfpg_check.specs.inside.Lookups.{IsLookupOf};
ghost use Rattle.tfpg_check.specs.inside.Named.{line_at, Names};

use crate::cause::CheckCause;
use crate::round::lookup::RoundLookup;
use crate::round_fault::FailedTest;
use tfpg_report::ReadRound;

/// Tests that the rejected lines are those of the hypotheses whose trees were closed in this round. Goes once through the
/// hypotheses, if the round has steps.
pub(crate) fn judge_rejected(lookup: &RoundLookup<'_>) -> Result<(), FailedTest>
    ensures { (basis : RoundBasis) → IsLookupOf basis lookup.now →
        MatchResult result
        (λ _. AreNewlyClosed basis lookup.now.read.now (map named_hypothesis lookup.now.read.now.rejected))
        (IsFailure (RejectedFails basis lookup.now.read.now)) }
{
    if lookup.read.parts.as_slice().is_empty() {
        return judge_none_rejected(lookup);
    }
    judge_each_rejected(lookup)
}

/// The same for a round without steps, which closes no tree.
fn judge_none_rejected(lookup: &RoundLookup<'_>) -> Result<(), FailedTest>
    requires { lookup.now.read.now.parts ≡ [] }
    ensures { (basis : RoundBasis) → IsLookupOf basis lookup.now →
        MatchResult result
        (λ _. AreNewlyClosed basis lookup.now.read.now (map named_hypothesis lookup.now.read.now.rejected))
        (IsFailure (RejectedFails basis lookup.now.read.now)) }
{
    if lookup.read.rejected.as_slice().is_empty() {
        return Ok(());
    }
    Err(fails_at(lookup.read, 0))
}

/// The same for any round. Goes once through the hypotheses.
fn judge_each_rejected(lookup: &RoundLookup<'_>) -> Result<(), FailedTest>
    ensures { (basis : RoundBasis) → IsLookupOf basis lookup.now →
        MatchResult result
        (λ _. AreNewlyClosed basis lookup.now.read.now (map named_hypothesis lookup.now.read.now.rejected))
        (IsFailure (RejectedFails basis lookup.now.read.now)) }
{
    let mut index = 0;
    for number in 0..lookup.table.len() {
        if lookup.is_newly_closed(number) {
            if !names(lookup, index, number) {
                return Err(fails_at(lookup.read, index));
            }
            index += 1;
        }
    }
    if index < lookup.read.rejected.as_slice().len() {
        return Err(fails_at(lookup.read, index));
    }
    Ok(())
}

/// Whether there is a rejected line of this index, and it names the hypothesis of this number.
fn names(lookup: &RoundLookup<'_>, index: usize, number: u32) -> bool
    requires { number < length lookup.now.table.now.hypotheses }
    ensures { IsTrue result ↔
        Names lookup.now.table.now.hypotheses number (slice_get lookup.now.read.now.rejected index) }
{
    match lookup.read.rejected.as_slice().get(index) {
        Some(named) => named.number == number && lookup.is_listed(number, named.hypothesis()),
        None => false,
    }
}

/// The failure at the rejected line of this index, or at the line of the counts, if there is none.
fn fails_at(read: &ReadRound, index: usize) -> FailedTest
    ensures line { result.line ≡ line_at read.entry.now index }
    ensures cause { result.cause ≡ cause.WrongRejected }
{
    let line = match read.rejected.as_slice().get(index) {
        Some(named) => named.first_line,
        None => read.counts_line,
    };
    FailedTest {
        line,
        cause: CheckCause::WrongRejected,
    }
}
