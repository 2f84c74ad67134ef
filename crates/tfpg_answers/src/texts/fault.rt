//! Why a call over texts in memory has no text to return.

ghost use Rattle.std.specs.Prelude.{◌≡◌};
ghost use Rattle.tfpg_answers.specs.declared.texts.fault.ExplainTextsFault.TheVariants as explaining;
ghost use Rattle.tfpg_answers.specs.declared.texts.fault.PredictTextsFault.TheVariants as predicting;
ghost use Rattle.tfpg_answers.specs.inside.texts.Faults.{ask_fault_of_refusal, ask_fault_of_table, explain_fault_of_refusal, predict_fault_of_refusal, predict_fault_of_table};

use crate::predict::ProbeFault;
use tfpg_base::NoMemory;
use tfpg_graph::{GraphFault, GraphRefusal};
use tfpg_hyp::TableFault;

/// Why there are no questions.
#[derive(Clone, Copy, PartialEq, Eq)]
pub enum AskTextsFault {
    /// A number of the terms is out of its range: `k` is more than [`MAX_K`](tfpg_base::MAX_K), `doubt` more than
    /// [`MAX_DOUBT`](tfpg_base::MAX_DOUBT), or the budget 0 or more than [`MAX_BUDGET`](tfpg_base::MAX_BUDGET).
    OutOfRange,
    /// The log has more than [`LONGEST_FILE`](tfpg_base::LONGEST_FILE) bytes.
    TooMuchInput,
    /// This is the first fault of the graph's text.
    Graph(GraphFault),
    /// There are more than [`MAX_HYPOTHESES`](tfpg_hyp::MAX_HYPOTHESES) hypotheses, exactly this many.
    TooManyHypotheses { count: u128 },
    /// Out of memory.
    NoMemory,
}

impl From<GraphRefusal> for AskTextsFault {
    ghost from_gives = { λ refusal e. e ≡ ask_fault_of_refusal refusal };

    fn from(refusal: GraphRefusal) -> AskTextsFault {
        match refusal {
            GraphRefusal::Fault(fault) => AskTextsFault::Graph(fault),
            GraphRefusal::NoMemory => AskTextsFault::NoMemory,
        }
    }
}

impl From<TableFault> for AskTextsFault {
    ghost from_gives = { λ fault e. e ≡ ask_fault_of_table fault };

    fn from(fault: TableFault) -> AskTextsFault {
        match fault {
            TableFault::TooMany { count } => AskTextsFault::TooManyHypotheses { count },
            TableFault::NoMemory => AskTextsFault::NoMemory,
        }
    }
}

/// Why there are no forecasts.
#[derive(Clone, Copy, PartialEq, Eq)]
pub enum PredictTextsFault {
    /// A number of the terms is out of its range, as [`AskTextsFault::OutOfRange`] says, or it is looked ahead more than
    /// [`MAX_TIME`](tfpg_base::MAX_TIME).
    OutOfRange,
    /// The log has more than [`LONGEST_FILE`](tfpg_base::LONGEST_FILE) bytes.
    TooMuchInput,
    /// This is the first fault of the graph's text.
    Graph(GraphFault),
    /// The node takes no probe.
    Probe(ProbeFault),
    /// There are more than [`MAX_HYPOTHESES`](tfpg_hyp::MAX_HYPOTHESES) hypotheses, exactly this many.
    TooManyHypotheses { count: u128 },
    /// Out of memory.
    NoMemory,
}

impl From<GraphRefusal> for PredictTextsFault {
    ghost from_gives = { λ refusal e. e ≡ predict_fault_of_refusal refusal };

    fn from(refusal: GraphRefusal) -> PredictTextsFault {
        match refusal {
            GraphRefusal::Fault(fault) => PredictTextsFault::Graph(fault),
            GraphRefusal::NoMemory => PredictTextsFault::NoMemory,
        }
    }
}

impl From<ProbeFault> for PredictTextsFault {
    ghost from_gives = { λ fault e. e ≡ predicting.Probe fault };

    fn from(fault: ProbeFault) -> PredictTextsFault {
        PredictTextsFault::Probe(fault)
    }
}

impl From<TableFault> for PredictTextsFault {
    ghost from_gives = { λ fault e. e ≡ predict_fault_of_table fault };

    fn from(fault: TableFault) -> PredictTextsFault {
        match fault {
            TableFault::TooMany { count } => PredictTextsFault::TooManyHypotheses { count },
            TableFault::NoMemory => PredictTextsFault::NoMemory,
        }
    }
}

/// Why there is no verdict.
#[derive(Clone, Copy, PartialEq, Eq)]
pub enum ExplainTextsFault {
    /// The log has more than [`LONGEST_FILE`](tfpg_base::LONGEST_FILE) bytes, or the map more than
    /// [`MAX_BYTES`](tfpg_base::MAX_BYTES).
    TooMuchInput,
    /// This is the first fault of the graph's text.
    Graph(GraphFault),
    /// The line of this number is the first faulty one of the map; a map without a line is faulty at line 1.
    BadMap { line: u64 },
    /// Out of memory.
    NoMemory,
}

impl From<GraphRefusal> for ExplainTextsFault {
    ghost from_gives = { λ refusal e. e ≡ explain_fault_of_refusal refusal };

    fn from(refusal: GraphRefusal) -> ExplainTextsFault {
        match refusal {
            GraphRefusal::Fault(fault) => ExplainTextsFault::Graph(fault),
            GraphRefusal::NoMemory => ExplainTextsFault::NoMemory,
        }
    }
}

impl From<NoMemory> for ExplainTextsFault {
    ghost from_gives = { λ _ e. e ≡ explaining.NoMemory };

    fn from(_e: NoMemory) -> ExplainTextsFault {
        ExplainTextsFault::NoMemory
    }
}
