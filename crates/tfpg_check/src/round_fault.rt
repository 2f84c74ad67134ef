//! Why a round of a report is not accepted.

use crate::cause::CheckCause;
use tfpg_base::NoMemory;

/// The first test that a round fails: at this line of the report, and for this cause.
#[derive(Clone, Copy)]
pub(crate) struct FailedTest {
    pub(crate) line: u64,
    pub(crate) cause: CheckCause,
}

/// Why a round of a report is not accepted.
#[derive(Clone, Copy)]
pub(crate) enum RoundFault {
    /// At this line of the report, for this cause.
    NotAccepted { line: u64, cause: CheckCause },
    /// Out of memory.
    NoMemory,
}

impl From<FailedTest> for RoundFault {
    ghost use Rattle.std.specs.Prelude.{◌≡◌};
    ghost use Rattle.tfpg_check.specs.declared.round_fault.RoundFault.TheVariants.{NotAccepted};

    ghost from_gives = { λ failed fault. fault ≡ NotAccepted failed.line failed.cause };

    fn from(failed: FailedTest) -> RoundFault {
        RoundFault::NotAccepted {
            line: failed.line,
            cause: failed.cause,
        }
    }
}

impl From<NoMemory> for RoundFault {
    ghost use Rattle.std.specs.Prelude.{◌≡◌};
    ghost use Rattle.tfpg_check.specs.declared.round_fault.RoundFault.TheVariants.{NoMemory};

    ghost from_gives = { λ _ fault. fault ≡ NoMemory };

    fn from(_e: NoMemory) -> RoundFault {
        RoundFault::NoMemory
    }
}
