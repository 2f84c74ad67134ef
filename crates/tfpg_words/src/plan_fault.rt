//! Why there is no plan.

ghost use Rattle.std.specs.Prelude.{◌≡◌};
ghost use Rattle.tfpg_words.specs.declared.plan_fault.PlanFault.TheVariants as faults;

use crate::usage_cause::UsageCause;
use std::alloc::{AllocError, AllocFailed};
use tfpg_base::NoMemory;
use thiserror::Error;

/// Why there is no plan.
#[derive(Debug, Drop, Error)]
pub enum PlanFault {
    /// The words are refused for this cause.
    #[error("the words of the command line are refused: {0:?}")]
    Usage(UsageCause),
    /// Out of memory.
    #[error("out of memory")]
    NoMemory,
}

impl From<UsageCause> for PlanFault {
    ghost from_gives = { λ cause e. e ≡ faults.Usage cause };

    fn from(cause: UsageCause) -> PlanFault {
        PlanFault::Usage(cause)
    }
}

impl From<NoMemory> for PlanFault {
    ghost from_gives = { λ _ e. e ≡ faults.NoMemory };

    fn from(_e: NoMemory) -> PlanFault {
        PlanFault::NoMemory
    }
}

impl From<AllocError> for PlanFault {
    ghost from_gives = { λ _ e. e ≡ faults.NoMemory };

    fn from(_e: AllocError) -> PlanFault {
        PlanFault::NoMemory
    }
}

impl<T: Drop> From<AllocFailed<T>> for PlanFault {
    ghost from_gives = { λ _ e. e ≡ faults.NoMemory };

    fn from(_e: AllocFailed<T>) -> PlanFault {
        PlanFault::NoMemory
    }
}
