//! How a run of the program ends.

ghost use Rattle.std.specs.Prelude.{◌≡◌, ◌∷◌, [], codes, decimal};
ghost use Rattle.std.specs.Process.{exit_status};
ghost use Rattle.tfpg_base.specs.Append.{Appends};
ghost use Rattle.tfpg_base.specs.Words.{line_of};
ghost use Rattle.tfpg_check.specs.CauseNames.{check_cause_name};
ghost use Rattle.tfpg_graph.specs.CauseNames.{graph_cause_name};
ghost use Rattle.tfpg_run.specs.Ends.{line_of_end, status_of};
ghost use Rattle.tfpg_words.specs.CauseNames.{usage_name};
ghost use Rattle.tfpg_run.specs.EndsOf.{end_of_check_fault, end_of_fetch_fault, end_of_line_fault, end_of_no_map, end_of_output_fault, end_of_stream_fault, end_of_probe_fault};
ghost use Rattle.tfpg_run.specs.declared.end.End.TheVariants as ends;
ghost use Rattle.tfpg_run.specs.inside.Faults.{end_of_plan_fault, end_of_sim_fault, end_of_table_fault};

use crate::fault::FetchFault;
use itoa::Buffer;
use std::process::ExitCode;
use tfpg_answers::ProbeFault;
use tfpg_base::{Failed, LineFault, NoMemory, append_words};
use tfpg_check::{CheckCause, check_cause_word};
use tfpg_diagnose::CheckFault;
use tfpg_graph::{GraphCause, graph_cause_word};
use tfpg_hyp::TableFault;
use tfpg_map::NoMap;
use tfpg_sim::SimFault;
use tfpg_streams::{OutputFault, StreamFault};
use tfpg_words::{PlanFault, UsageCause, usage_cause_word};

/// How a run ends. Of several that would hold, the first in the order of the work decides: the words, the files in their order,
/// the graph, the script, room for a probe and its node, the number of hypotheses, and then input and output line by line.
#[derive(Clone, Copy, Debug, PartialEq, Eq)]
pub enum End {
    /// All was written, and where the input is read, it was read to its end.
    Done,
    /// This line of the input or of the script is refused.
    NotAccepted { line: u64, cause: CheckCause },
    /// The words are refused.
    Usage { cause: UsageCause },
    /// The graph file has this fault in this line.
    Graph { line: u64, cause: GraphCause },
    /// There are more than [`MAX_HYPOTHESES`](tfpg_hyp::MAX_HYPOTHESES) hypotheses on the terms, exactly this many; or there are not, and
    /// those of all vehicles of a fleet are more than [`MAX_FLEET_HYPOTHESES`](tfpg_fleet::MAX_FLEET_HYPOTHESES), exactly this many.
    TooManyHypotheses { count: u128 },
    /// The shelf of files or the input failed.
    ReadFault,
    /// The output failed.
    WriteFault,
    /// The input has more than [`MAX_BYTES`](tfpg_base::MAX_BYTES) bytes, or a file more than
    /// [`LONGEST_FILE`](tfpg_base::LONGEST_FILE).
    TooMuchInput,
    /// Out of memory.
    NoMemory,
}

impl End {
    /// The status with which the program exits.
    pub fn status(&self) -> u8
        ensures { result ≡ status_of self.now }
    {
        match self {
            End::Done => 0,
            End::NotAccepted { .. } => 1,
            End::Usage { .. } => 2,
            End::Graph { .. } => 3,
            End::TooManyHypotheses { .. } => 4,
            End::ReadFault => 5,
            End::WriteFault => 6,
            End::TooMuchInput => 7,
            End::NoMemory => 8,
        }
    }

    /// The exit code of the process.
    pub fn code(&self) -> ExitCode
        ensures { exit_status result ≡ status_of self.now }
    {
        ExitCode::from(self.status())
    }

    /// Appends what is said of the end, without a line end: nothing where all went well.
    pub fn line(&self, into: &mut Vec<u8>) -> Result<(), NoMemory>
        ensures { Appends result into.old.items into.new.items (line_of_end self.now) }
    {
        match self {
            End::Done => Ok(()),
            End::NotAccepted { line, cause } => append_not_accepted(*line, *cause, into),
            End::Usage { cause } => append_usage(*cause, into),
            End::Graph { line, cause } => append_graph(*line, *cause, into),
            End::TooManyHypotheses { count } => append_too_many(*count, into),
            End::ReadFault => append_text(b"read fault", into),
            End::WriteFault => append_text(b"write fault", into),
            End::TooMuchInput => append_text(b"too much input", into),
            End::NoMemory => append_text(b"no memory", into),
        }
    }
}

impl From<FetchFault> for End {
    ghost from_gives = { λ fault e. e ≡ end_of_fetch_fault fault };

    fn from(fault: FetchFault) -> End {
        match fault {
            FetchFault::Failed => End::ReadFault,
            FetchFault::TooLong => End::TooMuchInput,
            FetchFault::Graph(fault) => End::Graph {
                line: fault.line,
                cause: fault.cause,
            },
            FetchFault::NoMemory => End::NoMemory,
        }
    }
}

impl From<PlanFault> for End {
    ghost from_gives = { λ fault e. e ≡ end_of_plan_fault fault };

    fn from(fault: PlanFault) -> End {
        match fault {
            PlanFault::Usage(cause) => End::Usage { cause },
            PlanFault::NoMemory => End::NoMemory,
        }
    }
}

impl From<TableFault> for End {
    ghost from_gives = { λ fault e. e ≡ end_of_table_fault fault };

    fn from(fault: TableFault) -> End {
        match fault {
            TableFault::TooMany { count } => End::TooManyHypotheses { count },
            TableFault::NoMemory => End::NoMemory,
        }
    }
}

impl From<StreamFault> for End {
    ghost from_gives = { λ fault e. e ≡ end_of_stream_fault fault };

    fn from(fault: StreamFault) -> End {
        match fault {
            StreamFault::ReadFault => End::ReadFault,
            StreamFault::WriteFault => End::WriteFault,
            StreamFault::TooMuchInput => End::TooMuchInput,
            StreamFault::NoMemory => End::NoMemory,
        }
    }
}

impl From<LineFault> for End {
    ghost from_gives = { λ fault e. e ≡ end_of_line_fault fault };

    fn from(fault: LineFault) -> End {
        match fault {
            LineFault::ReadFault => End::ReadFault,
            LineFault::TooMuchInput => End::TooMuchInput,
        }
    }
}

impl From<NoMap> for End {
    ghost from_gives = { λ fault e. e ≡ end_of_no_map fault };

    fn from(fault: NoMap) -> End {
        match fault {
            NoMap::Refused { line } => End::NotAccepted {
                line,
                cause: CheckCause::BadMap,
            },
            NoMap::Lines(fault) => End::from(fault),
            NoMap::NoMemory => End::NoMemory,
        }
    }
}

impl From<CheckFault> for End {
    ghost from_gives = { λ fault e. e ≡ end_of_check_fault fault };

    fn from(fault: CheckFault) -> End {
        match fault {
            CheckFault::NotAccepted { line, cause } => End::NotAccepted { line, cause },
            CheckFault::TooMany { count } => End::TooManyHypotheses { count },
            CheckFault::Lines(fault) => End::from(fault),
            CheckFault::NoMemory => End::NoMemory,
        }
    }
}

impl From<SimFault> for End {
    ghost from_gives = { λ fault e. e ≡ end_of_sim_fault fault };

    fn from(fault: SimFault) -> End {
        match fault {
            SimFault::BadScript { line } => End::NotAccepted {
                line,
                cause: CheckCause::BadScript,
            },
            SimFault::NoMemory => End::NoMemory,
        }
    }
}

impl From<Failed> for End {
    ghost from_gives = { λ _ e. e ≡ ends.WriteFault };

    fn from(_e: Failed) -> End {
        End::WriteFault
    }
}

impl From<OutputFault> for End {
    ghost from_gives = { λ fault e. e ≡ end_of_output_fault fault };

    fn from(fault: OutputFault) -> End {
        match fault {
            OutputFault::WriteFault => End::WriteFault,
            OutputFault::NoMemory => End::NoMemory,
        }
    }
}

impl From<ProbeFault> for End {
    ghost from_gives = { λ fault e. e ≡ end_of_probe_fault fault };

    fn from(fault: ProbeFault) -> End {
        match fault {
            ProbeFault::TooManyNodes => End::Graph {
                line: 0,
                cause: GraphCause::TooManyNodes,
            },
            ProbeFault::TooManyEdges => End::Graph {
                line: 0,
                cause: GraphCause::TooManyEdges,
            },
            ProbeFault::UnknownNode => End::Usage {
                cause: UsageCause::UnknownNode,
            },
        }
    }
}

/// Appends what is said of a line that is refused.
fn append_not_accepted(line: u64, cause: CheckCause, into: &mut Vec<u8>) -> Result<(), NoMemory>
    ensures { Appends result into.old.items into.new.items
        (line_of (codes "not" ∷ codes "accepted" ∷ decimal line ∷ check_cause_name cause ∷ [])) }
{
    let mut digits = Buffer::new();
    append_words(
        into,
        &[
            b"not",
            b"accepted",
            digits.format(line).as_bytes(),
            check_cause_word(cause),
        ],
    )
}

/// Appends what is said of words that are refused.
fn append_usage(cause: UsageCause, into: &mut Vec<u8>) -> Result<(), NoMemory>
    ensures { Appends result into.old.items into.new.items (line_of (codes "usage" ∷ usage_name cause ∷ [])) }
{
    append_words(into, &[b"usage", usage_cause_word(cause)])
}

/// Appends what is said of a graph that is refused.
fn append_graph(line: u64, cause: GraphCause, into: &mut Vec<u8>) -> Result<(), NoMemory>
    ensures { Appends result into.old.items into.new.items
        (line_of (codes "graph" ∷ decimal line ∷ graph_cause_name cause ∷ [])) }
{
    let mut digits = Buffer::new();
    append_words(
        into,
        &[
            b"graph",
            digits.format(line).as_bytes(),
            graph_cause_word(cause),
        ],
    )
}

/// Appends what is said of a graph that has too many hypotheses.
fn append_too_many(count: u128, into: &mut Vec<u8>) -> Result<(), NoMemory>
    ensures { Appends result into.old.items into.new.items
        (line_of (codes "too" ∷ codes "many" ∷ codes "hypotheses" ∷ decimal count ∷ [])) }
{
    let mut digits = Buffer::new();
    append_words(
        into,
        &[
            b"too",
            b"many",
            b"hypotheses",
            digits.format(count).as_bytes(),
        ],
    )
}

/// Appends a text.
fn append_text(text: &[u8], into: &mut Vec<u8>) -> Result<(), NoMemory>
    ensures { Appends result into.old.items into.new.items text.now }
{
    into.extend_from_slice(text)?;
    Ok(())
}
