//! Why a report is not accepted, or not judged.

use crate::cause::CheckCause;
use crate::round_fault::RoundFault;
use tfpg_hyp::TableFault;
use tfpg_report::ReadRefusal;

/// Why a report is not accepted, or not judged.
#[derive(Clone, Copy, PartialEq, Eq)]
pub enum JudgeFault {
    /// The first test of the report that fails says this line and this cause.
    NotAccepted { line: u64, cause: CheckCause },
    /// The first line gives more than [`MAX_HYPOTHESES`](tfpg_hyp::MAX_HYPOTHESES) hypotheses, exactly this many.
    TooMany { count: u128 },
    /// Out of memory.
    NoMemory,
}

impl From<ReadRefusal> for JudgeFault {
    ghost use Rattle.std.specs.Prelude.{◌≡◌};
    ghost use Rattle.tfpg_check.specs.inside.Faults.{fault_of_refusal};

    ghost from_gives = { λ refusal fault. fault ≡ fault_of_refusal refusal };

    fn from(refusal: ReadRefusal) -> JudgeFault {
        match refusal {
            ReadRefusal::BadReport { line } => JudgeFault::NotAccepted {
                line,
                cause: CheckCause::BadReport,
            },
            ReadRefusal::NoMemory => JudgeFault::NoMemory,
        }
    }
}

impl From<TableFault> for JudgeFault {
    ghost use Rattle.std.specs.Prelude.{◌≡◌};
    ghost use Rattle.tfpg_check.specs.inside.Faults.{fault_of_table};

    ghost from_gives = { λ failed fault. fault ≡ fault_of_table failed };

    fn from(failed: TableFault) -> JudgeFault {
        match failed {
            TableFault::TooMany { count } => JudgeFault::TooMany { count },
            TableFault::NoMemory => JudgeFault::NoMemory,
        }
    }
}

impl From<RoundFault> for JudgeFault {
    ghost use Rattle.std.specs.Prelude.{◌≡◌};
    ghost use Rattle.tfpg_check.specs.inside.Faults.{fault_of_round};

    ghost from_gives = { λ failed fault. fault ≡ fault_of_round failed };

    fn from(failed: RoundFault) -> JudgeFault {
        match failed {
            RoundFault::NotAccepted { line, cause } => JudgeFault::NotAccepted { line, cause },
            RoundFault::NoMemory => JudgeFault::NoMemory,
        }
    }
}
