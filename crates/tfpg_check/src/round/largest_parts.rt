//! The largest proper parts of hypotheses. By these it is found in one pass of which hypotheses a proper part is ranked.

ghost use Rattle.std.specs.Prelude.{◌≡◌, ◌↔◌, ◌<◌, ◌||◌, ℕ, List, length, All, IsTrue, IfOk, Some, slice_get};
ghost use Rattle.std.specs.List.{list_any};
ghost use Rattle.tfpg_base.specs.Hypothesis.{Hypothesis};
ghost use Rattle.tfpg_check.specs.inside.Lookups.{flag_at};
ghost use Rattle.tfpg_check.specs.inside.LargestParts.{IsPartAmong, IsPartOfOne, AreLargestFrom, ListsLargestParts, ArePartsBefore, SayFlaggedParts};

use crate::round::lookup::flag;
use std::alloc::Global;
use std::marker::Model;
use tfpg_base::NoMemory;
use tfpg_hyp::Table;

/// For each hypothesis of a table, the numbers of its largest proper parts: those that are no proper part of another one. Each
/// has one member less. Contracts see the list of these lists.
#[derive(Drop)]
pub(crate) struct LargestParts {
    rows: Vec<Vec<u32>>,
}

impl Model for LargestParts {
    ghost use Rattle.std.specs.Prelude.{ℕ, List, map};

    ghost Value = { List (List ℕ) };

    ghost view = { λ parts. map (λ row. row.items) parts.rows.items };
}

impl LargestParts {
    /// The largest proper parts of each hypothesis of the table. Looks once at each two hypotheses.
    pub(crate) fn new(alloc: Global, table: &Table) -> Result<LargestParts, NoMemory>
        ensures { IfOk result (ListsLargestParts table.now.hypotheses) }
    {
        let mut rows = Vec::with_capacity(alloc, table.len() as usize)?;
        for whole in 0..table.len() {
            rows.push(largest_parts(alloc, table, whole)?)?;
        }
        Ok(LargestParts { rows })
    }

    /// For each hypothesis, whether the flag of a proper part of it is up. Goes once through the largest parts.
    pub(crate) fn flagged(&self, alloc: Global, flags: &[bool]) -> Result<Vec<bool>, NoMemory>
        ensures { (hypotheses : List Hypothesis) → ListsLargestParts hypotheses self.now → ArePartsBefore hypotheses →
            IfOk result (λ said. SayFlaggedParts hypotheses flags.now (length hypotheses) said.items) }
    {
        let mut said = Vec::with_capacity(alloc, self.len())?;
        for whole in 0..self.len() {
            let is_up = has_flag(self.row(whole), flags, said.as_slice());
            said.push(is_up)?;
        }
        Ok(said)
    }

    /// Of how many hypotheses.
    fn len(&self) -> usize
        ensures { result ≡ length self.now }
    {
        self.rows.len()
    }

    /// The numbers of the largest proper parts of the hypothesis of this number.
    fn row(&self, whole: usize) -> &[u32]
        requires { whole < length self.now }
        ensures { slice_get self.now whole ≡ Some result.now }
    {
        self.rows[whole].as_slice()
    }
}

/// Whether one of two flags is up of one of the numbers.
fn has_flag(numbers: &[u32], flags: &[bool], others: &[bool]) -> bool
    ensures { result ≡ list_any (λ number. flag_at flags.now number || flag_at others.now number) numbers.now }
{
    numbers
        .iter()
        .any(|number| flag(flags, *number) || flag(others, *number))
}

/// The numbers of the largest proper parts of the hypothesis of this number. A proper part has a lesser number.
fn largest_parts(alloc: Global, table: &Table, whole: u32) -> Result<Vec<u32>, NoMemory>
    requires { whole < length table.now.hypotheses }
    ensures { IfOk result (λ parts. AreLargestFrom table.now.hypotheses whole 0 parts.items) }
{
    let mut parts = Vec::new(alloc);
    for number in (0..whole).rev() {
        if is_part(table, number, whole) && !is_part_of_any(table, number, parts.as_slice()) {
            parts.push(number)?;
        }
    }
    Ok(parts)
}

/// Whether the hypothesis of the one number is a proper part of one of those of the others.
fn is_part_of_any(table: &Table, part: u32, wholes: &[u32]) -> bool
    requires part { part < length table.now.hypotheses }
    requires wholes { All (λ whole. whole < length table.now.hypotheses) wholes.now }
    ensures { IsTrue result ↔ IsPartOfOne table.now.hypotheses part wholes.now }
{
    for whole in wholes {
        if is_part(table, part, *whole) {
            return true;
        }
    }
    false
}

/// Whether the hypothesis of the one number is a proper part of that of the other. Inlined, since a table asks it of each two
/// hypotheses.
#[inline(always)]
fn is_part(table: &Table, part: u32, whole: u32) -> bool
    requires part { part < length table.now.hypotheses }
    requires whole { whole < length table.now.hypotheses }
    ensures { IsTrue result ↔ IsPartAmong table.now.hypotheses part whole }
{
    let of = table.hypothesis(whole);
    table.hypothesis(part).is_proper_part(of)
}
