//! Why a report is not accepted.

ghost use Rattle.std.specs.Prelude.{◌≡◌};
ghost use Rattle.tfpg_diagnose.specs.inside.Faults.{check_fault_of_judge};
ghost use Rattle.tfpg_diagnose.specs.declared.fault.CheckFault.TheVariants as check;

use tfpg_base::{LineFault, NoMemory};
use tfpg_check::{CheckCause, JudgeFault};

/// Why the report of the input was not accepted.
#[derive(Clone, Copy, PartialEq, Eq)]
pub enum CheckFault {
    /// The first test of the report that fails says this line and this cause.
    NotAccepted { line: u64, cause: CheckCause },
    /// The first line gives more than [`MAX_HYPOTHESES`](tfpg_hyp::MAX_HYPOTHESES) hypotheses, exactly this many.
    TooMany { count: u128 },
    /// The input was not read to its end.
    Lines(LineFault),
    /// Out of memory.
    NoMemory,
}

impl From<JudgeFault> for CheckFault {
    ghost from_gives = { λ fault e. e ≡ check_fault_of_judge fault };

    fn from(fault: JudgeFault) -> CheckFault {
        match fault {
            JudgeFault::NotAccepted { line, cause } => CheckFault::NotAccepted { line, cause },
            JudgeFault::TooMany { count } => CheckFault::TooMany { count },
            JudgeFault::NoMemory => CheckFault::NoMemory,
        }
    }
}

impl From<LineFault> for CheckFault {
    ghost from_gives = { λ fault e. e ≡ check.Lines fault };

    fn from(fault: LineFault) -> CheckFault {
        CheckFault::Lines(fault)
    }
}

impl From<NoMemory> for CheckFault {
    ghost from_gives = { λ _ e. e ≡ check.NoMemory };

    fn from(_e: NoMemory) -> CheckFault {
        CheckFault::NoMemory
    }
}
