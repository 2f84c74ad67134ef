//! The counts of a round.

ghost use Rattle.std.specs.Prelude.{◌≡◌, ◌↔◌, ◌+◌, ℕ, length, count_by, IsTrue};
ghost use Rattle.tfpg_check.specs.inside.Named.{AreCountsFound};

use crate::round::lookup::RoundLookup;
use tfpg_evidence::Counts;

/// Whether the counts are right.
pub(crate) fn are_right_counts(lookup: &RoundLookup<'_>) -> bool
    ensures { IsTrue result ↔ AreCountsFound lookup.now }
{
    let read = lookup.read;
    let counts = read.counts;
    counts.ranked as usize == read.ranked.as_slice().len()
        && counts.unsettled as usize == read.unsettled.as_slice().len()
        && counts.rejected as usize == lookup.closed_count
        && total(counts) == u64::from(lookup.table.len())
}

/// How many hypotheses the counts are of.
fn total(counts: Counts) -> u64
    ensures { result ≡ counts.ranked + counts.covered + counts.rejected + counts.unsettled }
{
    u64::from(counts.ranked)
        + u64::from(counts.covered)
        + u64::from(counts.rejected)
        + u64::from(counts.unsettled)
}

/// How many flags are raised. Goes once through them.
pub(crate) fn count_raised(flags: &[bool]) -> usize
    ensures { result ≡ count_by (λ flag. flag) flags.now }
{
    flags.iter().filter(|flag| **flag).count()
}
