//! Why a call over texts in memory has no result.

ghost use Rattle.std.specs.Prelude.{◌≡◌};
ghost use Rattle.tfpg_diagnose.specs.declared.texts.fault.CheckTextsFault.TheVariants as check;
ghost use Rattle.tfpg_diagnose.specs.declared.texts.fault.ReportFault.TheVariants as reporting;
ghost use Rattle.tfpg_diagnose.specs.inside.texts.Faults.{check_texts_fault_of_refusal, open_fault_of_refusal, open_fault_of_table, report_fault_of_open};

use tfpg_base::NoMemory;
use tfpg_check::CheckCause;
use tfpg_graph::{GraphFault, GraphRefusal};
use tfpg_hyp::TableFault;

/// Why there is no diagnosis of the graph of a text on some terms.
#[derive(Clone, Copy, PartialEq, Eq)]
pub enum OpenFault {
    /// A number of the terms is out of its range: `k` is more than [`MAX_K`](tfpg_base::MAX_K), `doubt` more than
    /// [`MAX_DOUBT`](tfpg_base::MAX_DOUBT), or the budget 0 or more than [`MAX_BUDGET`](tfpg_base::MAX_BUDGET).
    OutOfRange,
    /// This is the first fault of the text.
    Graph(GraphFault),
    /// There are more than [`MAX_HYPOTHESES`](tfpg_hyp::MAX_HYPOTHESES) hypotheses, exactly this many.
    TooManyHypotheses { count: u128 },
    /// Out of memory.
    NoMemory,
}

impl From<GraphRefusal> for OpenFault {
    ghost from_gives = { λ refusal e. e ≡ open_fault_of_refusal refusal };

    fn from(refusal: GraphRefusal) -> OpenFault {
        match refusal {
            GraphRefusal::Fault(fault) => OpenFault::Graph(fault),
            GraphRefusal::NoMemory => OpenFault::NoMemory,
        }
    }
}

impl From<TableFault> for OpenFault {
    ghost from_gives = { λ fault e. e ≡ open_fault_of_table fault };

    fn from(fault: TableFault) -> OpenFault {
        match fault {
            TableFault::TooMany { count } => OpenFault::TooManyHypotheses { count },
            TableFault::NoMemory => OpenFault::NoMemory,
        }
    }
}

/// Why there is no report.
#[derive(Clone, Copy, PartialEq, Eq)]
pub enum ReportFault {
    /// A number of the terms is out of its range, as [`OpenFault::OutOfRange`] says.
    OutOfRange,
    /// This is the first fault of the graph's text.
    Graph(GraphFault),
    /// There are more than [`MAX_HYPOTHESES`](tfpg_hyp::MAX_HYPOTHESES) hypotheses, exactly this many.
    TooManyHypotheses { count: u128 },
    /// The log has more than [`MAX_BYTES`](tfpg_base::MAX_BYTES) bytes.
    TooMuchInput,
    /// Out of memory.
    NoMemory,
}

impl From<OpenFault> for ReportFault {
    ghost from_gives = { λ fault e. e ≡ report_fault_of_open fault };

    fn from(fault: OpenFault) -> ReportFault {
        match fault {
            OpenFault::OutOfRange => ReportFault::OutOfRange,
            OpenFault::Graph(fault) => ReportFault::Graph(fault),
            OpenFault::TooManyHypotheses { count } => ReportFault::TooManyHypotheses { count },
            OpenFault::NoMemory => ReportFault::NoMemory,
        }
    }
}

impl From<NoMemory> for ReportFault {
    ghost from_gives = { λ _ e. e ≡ reporting.NoMemory };

    fn from(_e: NoMemory) -> ReportFault {
        ReportFault::NoMemory
    }
}

/// Why a report is not accepted.
#[derive(Clone, Copy, PartialEq, Eq)]
pub enum CheckTextsFault {
    /// This is the first fault of the graph's text.
    Graph(GraphFault),
    /// The first test of the report that fails says this line and this cause.
    NotAccepted { line: u64, cause: CheckCause },
    /// The first line gives more than [`MAX_HYPOTHESES`](tfpg_hyp::MAX_HYPOTHESES) hypotheses, exactly this many.
    TooManyHypotheses { count: u128 },
    /// The log has more than [`LONGEST_FILE`](tfpg_base::LONGEST_FILE) bytes, or the report more than
    /// [`MAX_BYTES`](tfpg_base::MAX_BYTES).
    TooMuchInput,
    /// Out of memory.
    NoMemory,
}

impl From<GraphRefusal> for CheckTextsFault {
    ghost from_gives = { λ refusal e. e ≡ check_texts_fault_of_refusal refusal };

    fn from(refusal: GraphRefusal) -> CheckTextsFault {
        match refusal {
            GraphRefusal::Fault(fault) => CheckTextsFault::Graph(fault),
            GraphRefusal::NoMemory => CheckTextsFault::NoMemory,
        }
    }
}

impl From<NoMemory> for CheckTextsFault {
    ghost from_gives = { λ _ e. e ≡ check.NoMemory };

    fn from(_e: NoMemory) -> CheckTextsFault {
        CheckTextsFault::NoMemory
    }
}
