//! The round that the lines of its block say.

ghost use Rattle.std.specs.Prelude.{◌≡◌};
ghost use Rattle.tfpg_report.specs.ReadRounds.{hypothesis_ranked, hypothesis_named};

use tfpg_base::{Doubts, Hypothesis, Items, LineList, Set, Trace};
use tfpg_evidence::{Counts, StepList};

/// A hypothesis with its steps of a round, each with the number of the line of the report on which it begins.
#[derive(Drop)]
pub struct Part {
    pub first_line: u64,
    pub number: u32,
    pub steps: StepList,
    pub step_lines: LineList,
}

/// A ranked hypothesis, as a report says it. It begins on this line of the report.
#[derive(Drop)]
pub struct RankedLine {
    pub first_line: u64,
    pub number: u32,
    pub cost: u64,
    pub alarmed: u32,
    pub monitored: u32,
    pub set: Set,
    pub doubts: Doubts,
    pub trace: Trace,
}

impl RankedLine {
    /// The hypothesis that it names.
    pub fn hypothesis(&self) -> Hypothesis
        ensures { result ≡ hypothesis_ranked self.now }
    {
        Hypothesis {
            set: self.set,
            doubts: self.doubts,
        }
    }
}

/// An open or a rejected hypothesis, as this line of the report says it.
#[derive(Clone, Copy)]
pub struct NamedSet {
    pub first_line: u64,
    pub number: u32,
    pub set: Set,
    pub doubts: Doubts,
}

impl NamedSet {
    /// The hypothesis that it names.
    pub fn hypothesis(&self) -> Hypothesis
        ensures { result ≡ hypothesis_named self.now }
    {
        Hypothesis {
            set: self.set,
            doubts: self.doubts,
        }
    }
}

/// Hypotheses with their steps, in order.
pub type PartList = Items<Part>;

/// Ranked hypotheses, in order.
pub type RankedLineList = Items<RankedLine>;

/// Hypotheses with their sets, in order.
pub type NamedSetList = Items<NamedSet>;

/// What the lines of a round's block say. Nothing of it is judged: numbers, sets, steps and traces may be wrong.
#[derive(Drop)]
pub struct ReadRound {
    /// The number of the round.
    pub number: u32,
    /// The number of the line of the log.
    pub line: u64,
    /// The time in milliseconds.
    pub now: u64,
    /// The line of the report on which the round begins.
    pub first_line: u64,
    pub parts: PartList,
    pub ranked: RankedLineList,
    pub unsettled: NamedSetList,
    pub rejected: NamedSetList,
    pub counts: Counts,
    /// The line of the report that has the counts.
    pub counts_line: u64,
}
