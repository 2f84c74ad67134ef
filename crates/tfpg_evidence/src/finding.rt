//! What a round says of one hypothesis.

ghost use Rattle.std.specs.Prelude.{◌≡◌, ◌<◌, AllPairs, IfOk};
ghost use Rattle.std.specs.Option.{option_copied};
ghost use Rattle.tfpg_evidence.specs.Findings.{hypothesis_of};
ghost use Rattle.tfpg_evidence.specs.RoundOf.{finding_numbered, is_ranked};

use crate::StepList;
use crate::step::copy_steps;
use std::alloc::Global;
use tfpg_base::{Doubts, Hypothesis, Items, NoMemory, Set, Trace};

/// The status of a hypothesis in a round.
#[derive(Drop)]
pub enum Status {
    /// The trace explains the log, its doubts ignored, from its failure modes, and no proper part is ranked. `cost` is the sum of their
    /// rarities, and 1,000 for each doubt; of the `monitored` nodes in its reach that it does not doubt `alarmed` have an alarm.
    Ranked {
        trace: Trace,
        cost: u64,
        alarmed: u32,
        monitored: u32,
    },
    /// A proper part of it is ranked; `by` is the least number of one.
    Covered {
        by: u32,
    },
    /// The steps of all rounds so far refute it.
    Rejected,
    /// The budget of this round was spent on splits, and the tree is unsettled.
    Open,
}

impl Status {
    /// Whether the status ranks.
    pub fn is_ranked(&self) -> bool
        ensures { result ≡ is_ranked self.now }
    {
        match self {
            Status::Ranked { .. } => true,
            Status::Covered { .. } => false,
            Status::Rejected => false,
            Status::Open => false,
        }
    }

    /// An equal status.
    fn copy(&self) -> Result<Status, NoMemory>
        ensures { IfOk result (λ copy. copy ≡ self.now) }
    {
        match self {
            Status::Ranked {
                trace,
                cost,
                alarmed,
                monitored,
            } => Ok(Status::Ranked {
                trace: trace.copy()?,
                cost: *cost,
                alarmed: *alarmed,
                monitored: *monitored,
            }),
            Status::Covered { by } => Ok(Status::Covered { by: *by }),
            Status::Rejected => Ok(Status::Rejected),
            Status::Open => Ok(Status::Open),
        }
    }
}

/// A hypothesis with its number, its steps of this round and its status.
#[derive(Drop)]
pub struct Finding {
    pub number: u32,
    /// The failure modes of the hypothesis.
    pub set: Set,
    /// The monitors that it does not believe.
    pub doubts: Doubts,
    pub steps: StepList,
    pub status: Status,
}

/// Findings in the order of their numbers.
pub type Findings = Items<Finding>;

impl Finding {
    /// The hypothesis that it is on.
    pub fn hypothesis(&self) -> Hypothesis
        ensures { result ≡ hypothesis_of self.now }
    {
        Hypothesis {
            set: self.set,
            doubts: self.doubts,
        }
    }

    /// An equal finding.
    fn copy(&self) -> Result<Finding, NoMemory>
        ensures { IfOk result (λ copy. copy ≡ self.now) }
    {
        let Hypothesis { set, doubts } = self.hypothesis();
        let steps = copy_steps(&self.steps)?;
        let status = self.status.copy()?;
        Ok(Finding {
            number: self.number,
            set,
            doubts,
            steps,
            status,
        })
    }
}

/// The finding of a number, among findings whose numbers rise. Takes time logarithmic in their count.
pub fn finding_numbered(findings: &[Finding], number: u32) -> Option<&Finding>
    requires { AllPairs (λ earlier later. earlier.number < later.number) findings.now }
    ensures { option_copied result ≡ finding_numbered findings.now number }
{
    match findings.binary_search_by_key(&number, |finding| finding.number) {
        Ok(index) => Some(&findings[index]),
        Err(_) => None,
    }
}

/// Equal findings in the same order.
pub(crate) fn copy_findings(findings: &Findings) -> Result<Findings, NoMemory>
    ensures { IfOk result (λ copy. copy ≡ findings.now) }
{
    Ok(Findings::from_vec(copies_of(findings.allocator(), findings.as_slice())?))
}

/// A copy of each finding, in order.
fn copies_of(alloc: Global, findings: &[Finding]) -> Result<Vec<Finding>, NoMemory>
    ensures { IfOk result (λ copies. copies.items ≡ findings.now) }
{
    let mut copies = Vec::with_capacity(alloc, findings.len())?;
    for finding in findings {
        copies.push(finding.copy()?)?;
    }
    Ok(copies)
}
