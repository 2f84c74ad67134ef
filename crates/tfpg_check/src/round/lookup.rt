//! What the tests of a round look up, once its steps are taken.

ghost use Rattle.std.specs.Prelude.{◌≡◌, ◌↔◌, ◌<◌, ◌||◌, ◌==◌, ℕ, length, get_or, map, replicate, IsTrue, IfOk, Some, None, false, option_map, option_and_then, slice_get};
ghost use Rattle.std.specs.List.{list_any};
ghost use Rattle.tfpg_kernel.specs.CheckerState.{CheckerState};
ghost use Rattle.tfpg_report.specs.declared.read_round.RankedLine.{RankedLine as RankedRead};
ghost use Rattle.tfpg_report.specs.declared.read_round.NamedSet.{NamedSet as NamedRead};
ghost use Rattle.tfpg_check.specs.inside.Lookups.{flag_at, part_index, noted, is_newly_closed};

use std::alloc::Global;
use tfpg_base::{Hypothesis, NoMemory};
use tfpg_graph::Graph;
use tfpg_hyp::Table;
use tfpg_kernel::Checker;
use tfpg_report::{NamedSet, Part, RankedLine, ReadRound};

/// A round whose steps are taken, with what is known of each hypothesis by its number.
#[derive(Clone, Copy)]
pub(crate) struct RoundLookup<'a> {
    pub(crate) graph: &'a Graph,
    pub(crate) table: &'a Table,
    pub(crate) budget: u64,
    pub(crate) read: &'a ReadRound,
    /// Whose trees were closed in earlier rounds.
    pub(crate) was_closed: &'a [bool],
    /// Whose trees are closed.
    pub(crate) closed: &'a [bool],
    /// How many these are.
    pub(crate) closed_count: usize,
    /// Which are named by ranked lines.
    pub(crate) ranked: &'a [bool],
    /// Of which a proper part is named by a ranked line.
    pub(crate) part_ranked: &'a [bool],
    /// Whether one of these three is known of each. If not, nothing is said.
    pub(crate) are_all_flagged: bool,
    /// Which are named by open lines.
    pub(crate) unsettled: &'a [bool],
    /// Which part each has.
    pub(crate) parts: &'a [Option<usize>],
}

impl<'a> RoundLookup<'a> {
    /// Whether the table has this hypothesis at this number.
    pub(crate) fn is_listed(&self, number: u32, hypothesis: Hypothesis) -> bool
        ensures { IsTrue result ↔ (slice_get self.now.table.now.hypotheses number ≡ Some hypothesis) }
    {
        number < self.table.len() && self.table.hypothesis(number).is_same(hypothesis)
    }

    /// Whether the tree of the hypothesis of this number is closed.
    pub(crate) fn is_closed(&self, number: u32) -> bool
        ensures { result ≡ flag_at self.now.closed.now number }
    {
        flag(self.closed, number)
    }

    /// Whether it was closed in this round.
    pub(crate) fn is_newly_closed(&self, number: u32) -> bool
        ensures { result ≡ is_newly_closed self.now number }
    {
        flag(self.closed, number) && !flag(self.was_closed, number)
    }

    /// Whether a ranked line names the hypothesis of this number.
    pub(crate) fn is_ranked(&self, number: u32) -> bool
        ensures { result ≡ flag_at self.now.ranked.now number }
    {
        flag(self.ranked, number)
    }

    /// Whether a ranked line names a proper part of the hypothesis of this number.
    pub(crate) fn has_ranked_part(&self, number: u32) -> bool
        ensures { result ≡ flag_at self.now.part_ranked.now number }
    {
        flag(self.part_ranked, number)
    }

    /// Whether an open line names the hypothesis of this number.
    pub(crate) fn is_unsettled(&self, number: u32) -> bool
        ensures { result ≡ flag_at self.now.unsettled.now number }
    {
        flag(self.unsettled, number)
    }

    /// The part with the steps of the hypothesis of this number, if it has steps.
    pub(crate) fn part(&self, number: u32) -> Option<&'a Part>
        ensures { option_map (λ part. part.now) result
            ≡ option_and_then (slice_get self.now.read.now.parts) (get_or self.now.parts.now number None) }
    {
        match self.parts.get(number as usize) {
            Some(Some(index)) => self.read.parts.as_slice().get(*index),
            _ => None,
        }
    }
}

/// The flag of a number. Past the end all are down.
pub(crate) fn flag(flags: &[bool], number: u32) -> bool
    ensures { result ≡ flag_at flags.now number }
{
    match flags.get(number as usize) {
        Some(flag) => *flag,
        None => false,
    }
}

/// For each checker, whether its tree is closed.
pub(crate) fn closed_flags(alloc: Global, checkers: &[Checker]) -> Result<Vec<bool>, NoMemory>
    ensures { IfOk result (λ flags. flags.items ≡ map (λ (checker : CheckerState). checker.closed) checkers.now) }
{
    let mut flags = Vec::with_capacity(alloc, checkers.len())?;
    for checker in checkers {
        flags.push(checker.is_closed())?;
    }
    Ok(flags)
}

/// For each number below `count`, whether a ranked line has it.
pub(crate) fn ranked_flags(
    alloc: Global,
    count: u32,
    ranked: &[RankedLine],
) -> Result<Vec<bool>, NoMemory>
    ensures { IfOk result (λ flags. (number : ℕ) → number < count →
        flag_at flags.items number ≡ list_any (λ (r : RankedRead). r.number == number) ranked.now) }
{
    let mut flags = no_flags(alloc, count)?;
    raise_ranked(&mut flags, ranked);
    Ok(flags)
}

/// Raises the flags of ranked lines.
fn raise_ranked(flags: &mut [bool], ranked: &[RankedLine])
    ensures { (number : ℕ) → number < length flags.old → flag_at flags.new number
        ≡ (flag_at flags.old number || list_any (λ (r : RankedRead). r.number == number) ranked.now) }
{
    for r in ranked {
        raise(flags, r.number);
    }
}

/// For each number below `count`, whether a line of these sets has it.
pub(crate) fn named_flags(
    alloc: Global,
    count: u32,
    named: &[NamedSet],
) -> Result<Vec<bool>, NoMemory>
    ensures { IfOk result (λ flags. (number : ℕ) → number < count →
        flag_at flags.items number ≡ list_any (λ (named : NamedRead). named.number == number) named.now) }
{
    let mut flags = no_flags(alloc, count)?;
    raise_named(&mut flags, named);
    Ok(flags)
}

/// Raises the flags of the lines of sets.
fn raise_named(flags: &mut [bool], named: &[NamedSet])
    ensures { (number : ℕ) → number < length flags.old → flag_at flags.new number
        ≡ (flag_at flags.old number || list_any (λ (named : NamedRead). named.number == number) named.now) }
{
    for set in named {
        raise(flags, set.number);
    }
}

/// So many flags, all down.
fn no_flags(alloc: Global, count: u32) -> Result<Vec<bool>, NoMemory>
    ensures { IfOk result (λ flags. flags.items ≡ replicate count false) }
{
    Ok(vec![in alloc; false; count as usize]?)
}

/// Raises the flag of a number, if there is one.
fn raise(flags: &mut [bool], number: u32)
    ensures { (other : ℕ) → other < length flags.old →
        flag_at flags.new other ≡ (flag_at flags.old other || (number == other)) }
{
    if (number as usize) < flags.len() {
        flags[number as usize] = true;
    }
}

/// For each number below `count`, which part has it.
pub(crate) fn part_indexes(
    alloc: Global,
    count: u32,
    parts: &[Part],
) -> Result<Vec<Option<usize>>, NoMemory>
    ensures { IfOk result (λ indexes. (number : ℕ) → number < count →
        get_or indexes.items number None ≡ part_index parts.now number) }
{
    let mut indexes = no_indexes(alloc, count)?;
    note_parts(&mut indexes, parts);
    Ok(indexes)
}

/// Notes the index of each part for its number.
fn note_parts(indexes: &mut [Option<usize>], parts: &[Part])
    requires { (number : ℕ) → get_or indexes.old number None ≡ None }
    ensures { (number : ℕ) → number < length indexes.old →
        get_or indexes.new number None ≡ part_index parts.now number }
{
    for index in 0..parts.len() {
        note(indexes, parts[index].number, index);
    }
}

/// So many times no index.
fn no_indexes(alloc: Global, count: u32) -> Result<Vec<Option<usize>>, NoMemory>
    ensures { IfOk result (λ indexes. indexes.items ≡ replicate count None) }
{
    Ok(vec![in alloc; None; count as usize]?)
}

/// Notes the index of a number that has none yet.
fn note(indexes: &mut [Option<usize>], number: u32, index: usize)
    ensures { (other : ℕ) → other < length indexes.old →
        get_or indexes.new other None ≡ noted (get_or indexes.old other None) (number == other) index }
{
    if (number as usize) < indexes.len() && indexes[number as usize].is_none() {
        indexes[number as usize] = Some(index);
    }
}
