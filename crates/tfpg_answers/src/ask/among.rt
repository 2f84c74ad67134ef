//! Which hypotheses are asked about.

ghost use Rattle.std.specs.Prelude.{◌≡◌, ◌≤◌, IfOk, IfSome, length};
ghost use Rattle.tfpg_base.specs.Choice.{numbers_from};
ghost use Rattle.tfpg_hyp.specs.declared.limits.TheConstants.{MAX_HYPOTHESES};
ghost use Rattle.tfpg_engine.specs.Work.{is_ranked_or_open};
ghost use Rattle.tfpg_answers.specs.Questions.{left_by};

use std::alloc::Global;
use tfpg_base::{NoMemory, NumberList};
use tfpg_evidence::{Finding, Round, Status};

/// The numbers of the hypotheses that the last round leaves: the ranked and the open ones, rising. Before the first round there are none.
pub(super) fn numbers_left(alloc: Global, last: &Option<Round>) -> Result<NumberList, NoMemory>
    requires { IfSome last.now (λ round. length round.findings ≤ MAX_HYPOTHESES) }
    ensures { IfOk result (λ numbers. numbers ≡ left_by last.now) }
{
    match last {
        Some(round) => numbers_among(alloc, round.findings.as_slice()),
        None => Ok(NumberList::new(alloc)),
    }
}

/// The numbers of those of the findings that are ranked or open.
fn numbers_among(alloc: Global, findings: &[Finding]) -> Result<NumberList, NoMemory>
    requires { length findings.now ≤ MAX_HYPOTHESES }
    ensures { IfOk result (λ numbers. numbers ≡ numbers_from 0 (λ finding. is_ranked_or_open finding.status) findings.now) }
{
    let mut numbers = NumberList::new(alloc);
    for index in 0..findings.len() {
        if is_left(&findings[index].status) {
            numbers.push(index as u32)?;
        }
    }
    Ok(numbers)
}

/// Whether the hypothesis is ranked or open.
fn is_left(status: &Status) -> bool
    ensures { result ≡ is_ranked_or_open status.now }
{
    match status {
        Status::Ranked { .. } => true,
        Status::Covered { .. } => false,
        Status::Rejected => false,
        Status::Open => true,
    }
}
