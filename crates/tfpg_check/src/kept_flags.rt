//! What a round that passed has shown of each hypothesis. By it a round that adds nothing is judged without a pass over the
//! hypotheses.

ghost use Rattle.std.specs.Prelude.{◌≡◌, ◌↔◌, ◌<◌, ℕ, map, IsTrue, IfOk, IfSome, Some};
ghost use Rattle.tfpg_report.specs.declared.read_round.RankedLine.{RankedLine as RankedRead};
ghost use Rattle.tfpg_check.specs.inside.Lookups.{IsFlagged};
ghost use Rattle.tfpg_check.specs.inside.KeptFlags.{AddsNothing};

use crate::round::lookup::flag;
use std::alloc::Global;
use tfpg_base::NoMemory;
use tfpg_report::{RankedLine, ReadRound};

/// What a round that passed has shown of each hypothesis, by its number.
#[derive(Drop)]
pub(crate) struct KeptFlags {
    /// The numbers of the ranked lines.
    pub(crate) numbers: Vec<u32>,
    /// Whose trees are closed.
    pub(crate) closed: Vec<bool>,
    /// How many these are.
    pub(crate) closed_count: usize,
    /// Which are named by ranked lines.
    pub(crate) ranked: Vec<bool>,
    /// Of which a proper part is named by a ranked line.
    pub(crate) part_ranked: Vec<bool>,
    /// Whether one of these three is known of each.
    pub(crate) are_all_flagged: bool,
}

/// What was kept, where the round adds nothing to it: it has no steps and no open line, and the same numbers are ranked. Goes
/// through the ranked lines.
pub(crate) fn unchanged_by<'a>(
    kept: &'a Option<KeptFlags>,
    read: &ReadRound,
) -> Option<&'a KeptFlags>
    ensures { IfSome result (λ flags. (kept.now ≡ Some flags.now) × AddsNothing flags.now read.entry.now) }
{
    let flags = kept.as_ref()?;
    if adds_nothing(flags, read) {
        Some(flags)
    } else {
        None
    }
}

/// Whether the round adds nothing to these flags.
fn adds_nothing(flags: &KeptFlags, read: &ReadRound) -> bool
    ensures { IsTrue result → AddsNothing flags.now read.entry.now }
{
    read.parts.as_slice().is_empty()
        && read.unsettled.as_slice().is_empty()
        && are_numbers_of(flags.numbers.as_slice(), read.ranked.as_slice())
}

/// Whether these are the numbers of the ranked lines, in their order.
fn are_numbers_of(numbers: &[u32], ranked: &[RankedLine]) -> bool
    ensures { IsTrue result → numbers.now ≡ map (λ (r : RankedRead). r.number) ranked.now }
{
    if numbers.len() != ranked.len() {
        return false;
    }
    for index in 0..numbers.len() {
        if numbers[index] != ranked[index].number {
            return false;
        }
    }
    true
}

/// The numbers of the ranked lines, in their order.
pub(crate) fn numbers_of(alloc: Global, ranked: &[RankedLine]) -> Result<Vec<u32>, NoMemory>
    ensures { IfOk result (λ numbers. numbers.items ≡ map (λ (r : RankedRead). r.number) ranked.now) }
{
    let mut numbers = Vec::with_capacity(alloc, ranked.len())?;
    for r in ranked {
        numbers.push(r.number)?;
    }
    Ok(numbers)
}

/// Whether of each number below `count` one of the flags is up.
pub(crate) fn are_all_flagged(
    count: u32,
    closed: &[bool],
    ranked: &[bool],
    part_ranked: &[bool],
) -> bool
    ensures { IsTrue result → (number : ℕ) → number < count →
        IsFlagged closed.now ranked.now part_ranked.now number }
{
    for number in 0..count {
        if !is_flagged(closed, ranked, part_ranked, number) {
            return false;
        }
    }
    true
}

/// Whether one of the flags is up of the number.
fn is_flagged(closed: &[bool], ranked: &[bool], part_ranked: &[bool], number: u32) -> bool
    ensures { IsTrue result ↔ IsFlagged closed.now ranked.now part_ranked.now number }
{
    flag(closed, number) || flag(ranked, number) || flag(part_ranked, number)
}
