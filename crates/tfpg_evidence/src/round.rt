//! What one accepted line of the log brings.

ghost use Rattle.std.specs.Prelude.{◌≡◌, IfOk};

use crate::Findings;
use crate::finding::copy_findings;
use tfpg_base::{NoMemory, NumberList};

/// How many hypotheses have each status. A hypothesis is open where its budget was spent.
#[derive(Clone, Copy, PartialEq, Eq)]
pub struct Counts {
    pub ranked: u32,
    pub covered: u32,
    pub rejected: u32,
    pub unsettled: u32,
}

/// What one accepted line brings: a finding for each hypothesis.
#[derive(Drop)]
pub struct Round {
    /// The number of the round, which is that of the accepted event, from 1.
    pub number: u32,
    /// The number of the line, from 1.
    pub line: u64,
    /// The time of the event in milliseconds.
    pub now: u64,
    /// A finding for each hypothesis of the table, in the order of their numbers.
    pub findings: Findings,
    /// The numbers of the ranked hypotheses, best first.
    pub order: NumberList,
    pub counts: Counts,
}

impl Round {
    /// An equal round, for whoever keeps rounds. Takes time and memory linear in the round.
    pub fn copy(&self) -> Result<Round, NoMemory>
        ensures { IfOk result (λ copy. copy ≡ self.entry.now) }
    {
        let findings = copy_findings(&self.findings)?;
        let order = self.order.copy()?;
        Ok(Round {
            number: self.number,
            line: self.line,
            now: self.now,
            findings,
            order,
            counts: self.counts,
        })
    }
}
