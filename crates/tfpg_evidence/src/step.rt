//! The steps of a refutation.

ghost use Rattle.std.specs.Prelude.{◌≡◌, IfOk};

use crate::{ClauseName, Reasons};
use std::alloc::Global;
use tfpg_base::{Items, NoMemory};

/// A step of a refutation, which is a tree in prefix order.
#[derive(Drop)]
pub enum Step {
    /// Splits the present leaf: one subtree follows for each alternative of the clause, in order.
    Split(ClauseName),
    /// Closes the present leaf by reasons that chain into a cycle with a negative sum.
    Cycle(Reasons),
    /// Closes the remaining alternatives of the deepest split by the subtree of the alternative before.
    Again,
}

/// Steps in order.
pub type StepList = Items<Step>;

impl Step {
    /// An equal step.
    fn copy(&self) -> Result<Step, NoMemory>
        ensures { IfOk result (λ copy. copy ≡ self.now) }
    {
        match self {
            Step::Split(name) => Ok(Step::Split(*name)),
            Step::Cycle(reasons) => Ok(Step::Cycle(reasons.copy()?)),
            Step::Again => Ok(Step::Again),
        }
    }
}

/// Equal steps in the same order.
pub(crate) fn copy_steps(steps: &StepList) -> Result<StepList, NoMemory>
    ensures { IfOk result (λ copy. copy ≡ steps.now) }
{
    Ok(StepList::from_vec(copies_of(steps.allocator(), steps.as_slice())?))
}

/// A copy of each step, in order.
fn copies_of(alloc: Global, steps: &[Step]) -> Result<Vec<Step>, NoMemory>
    ensures { IfOk result (λ copies. copies.items ≡ steps.now) }
{
    let mut copies = Vec::with_capacity(alloc, steps.len())?;
    for step in steps {
        copies.push(step.copy()?)?;
    }
    Ok(copies)
}
