//! That each hypothesis has a status.

ghost use Rattle.std.specs.Prelude.{◌≡◌, ◌↔◌, [], IsTrue};
ghost use Rattle.tfpg_check.specs.Judging.{RoundBasis, EachHasStatus};
ghost use Rattle.tfpg_check.specs.inside.Lookups.{IsLookupOf};
ghost use Rattle.tfpg_check.specs.inside.Named.{HasStatusFound, IsCoveredFound, IsEachKnown, steps_found};

use crate::round::lookup::RoundLookup;

/// Whether each hypothesis has a status. Goes once through them, unless the round has no steps and one is known of each.
pub(crate) fn each_has_status(lookup: &RoundLookup<'_>) -> bool
    ensures { (basis : RoundBasis) → IsLookupOf basis lookup.now →
        IsTrue result ↔ EachHasStatus basis lookup.now.read.now }
{
    if is_each_known(lookup) {
        return true;
    }
    for number in 0..lookup.table.len() {
        if !has_status(lookup, number) {
            return false;
        }
    }
    true
}

/// Whether the round has no steps, and each hypothesis is known to have a status.
fn is_each_known(lookup: &RoundLookup<'_>) -> bool
    ensures { IsTrue result → IsEachKnown lookup.now }
{
    lookup.are_all_flagged && lookup.read.parts.as_slice().is_empty()
}

/// Whether the hypothesis of this number has a status: its tree is closed, it is ranked, it is open, or it has no steps in this
/// round and a proper part of it is ranked.
fn has_status(lookup: &RoundLookup<'_>, number: u32) -> bool
    ensures { IsTrue result ↔ HasStatusFound lookup.now number }
{
    lookup.is_closed(number)
        || lookup.is_ranked(number)
        || lookup.is_unsettled(number)
        || is_covered(lookup, number)
}

/// Whether the hypothesis of this number has no steps in this round, and a proper part of it is ranked.
fn is_covered(lookup: &RoundLookup<'_>, number: u32) -> bool
    ensures { IsTrue result ↔ IsCoveredFound lookup.now number }
{
    has_no_steps(lookup, number) && lookup.has_ranked_part(number)
}

/// Whether the hypothesis of this number has no steps in this round.
fn has_no_steps(lookup: &RoundLookup<'_>, number: u32) -> bool
    ensures { IsTrue result ↔ (steps_found lookup.now number ≡ []) }
{
    match lookup.part(number) {
        Some(part) => part.steps.as_slice().is_empty(),
        None => true,
    }
}
