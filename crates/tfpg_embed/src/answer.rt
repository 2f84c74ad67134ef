//! What a call answers, as C sees it.

ghost use Rattle.std.specs.Prelude.{◌≡◌, ◌%◌, ◌/◌, ◌^◌};
ghost use Rattle.tfpg_embed.specs.Answers.{answer_of_ask_fault, answer_of_check_fault, answer_of_event_fault, answer_of_explain_fault, answer_of_open_fault, answer_of_predict_fault, answer_of_probe_fault, answer_of_report_fault, answer_with, counted, graph_refused, refused, too_many};
ghost use Rattle.tfpg_embed.specs.Causes.{check_cause_number, graph_cause_number};
ghost use Rattle.tfpg_embed.specs.declared.status.TheConstants.{FULL_GRAPH};

use crate::status::{
    BAD_GRAPH, BAD_MAP, ENDED, FULL_GRAPH, NO_MEMORY, NO_SUCH, NOT_ACCEPTED, OUT_OF_RANGE,
    TOO_MANY_HYPOTHESES, TOO_MUCH_INPUT,
};
use tfpg_answers::{AskTextsFault, ExplainTextsFault, PredictTextsFault, ProbeFault};
use tfpg_check::CheckCause;
use tfpg_diagnose::{CheckTextsFault, OpenFault, ReportFault};
use tfpg_engine::EventFault;
use tfpg_graph::{GraphCause, GraphFault};

/// How a call ended, and what there is to say of it. What a status says nothing of is 0.
#[repr(C)]
#[derive(Clone, Copy, PartialEq, Eq)]
pub struct TfpgAnswer {
    /// One of the constants of this crate.
    pub status: u32,
    /// Why a graph or a report is refused, as a number from 1 in the order of [`GraphCause`] or [`CheckCause`]. So it is where a graph has
    /// no room for a probe.
    pub cause: u32,
    /// At which line.
    pub line: u64,
    /// How many bytes a text has, how many rounds a report has, or the last 64 bits of a number of hypotheses.
    pub count: u64,
    /// The first 64 bits of a number of hypotheses.
    pub count_high: u64,
}

/// The answer with this status and nothing else.
pub(crate) fn plain(status: u32) -> TfpgAnswer
    ensures { result ≡ answer_with status }
{
    TfpgAnswer {
        status,
        cause: 0,
        line: 0,
        count: 0,
        count_high: 0,
    }
}

/// The answer with this status and count.
pub(crate) fn with_count(status: u32, count: u64) -> TfpgAnswer
    ensures { result ≡ counted status count }
{
    TfpgAnswer {
        status,
        cause: 0,
        line: 0,
        count,
        count_high: 0,
    }
}

/// The answer with this status, for what is refused with this cause at this line.
fn with_cause(status: u32, cause: u32, line: u64) -> TfpgAnswer
    ensures { result ≡ refused status cause line }
{
    TfpgAnswer {
        status,
        cause,
        line,
        count: 0,
        count_high: 0,
    }
}

/// The answer for a graph that is refused.
fn of_graph_fault(fault: GraphFault) -> TfpgAnswer
    ensures { result ≡ graph_refused fault }
{
    with_cause(BAD_GRAPH, number_of_graph_cause(fault.cause), fault.line)
}

/// The answer for so many hypotheses.
fn of_hypotheses(hypotheses: u128) -> TfpgAnswer
    ensures { result ≡ too_many hypotheses }
{
    TfpgAnswer {
        status: TOO_MANY_HYPOTHESES,
        cause: 0,
        line: 0,
        count: last_half(hypotheses),
        count_high: first_half(hypotheses),
    }
}

/// The last 64 bits of a number.
fn last_half(number: u128) -> u64
    ensures { result ≡ number % 2 ^ 64 }
{
    (number % 18_446_744_073_709_551_616) as u64
}

/// The first 64 bits of a number.
fn first_half(number: u128) -> u64
    ensures { result ≡ number / 2 ^ 64 }
{
    (number / 18_446_744_073_709_551_616) as u64
}

/// The answer where there is no report.
pub(crate) fn of_report_fault(fault: ReportFault) -> TfpgAnswer
    ensures { result ≡ answer_of_report_fault fault }
{
    match fault {
        ReportFault::OutOfRange => plain(OUT_OF_RANGE),
        ReportFault::Graph(fault) => of_graph_fault(fault),
        ReportFault::TooManyHypotheses { count } => of_hypotheses(count),
        ReportFault::TooMuchInput => plain(TOO_MUCH_INPUT),
        ReportFault::NoMemory => plain(NO_MEMORY),
    }
}

/// The answer where a report is not accepted.
pub(crate) fn of_check_fault(fault: CheckTextsFault) -> TfpgAnswer
    ensures { result ≡ answer_of_check_fault fault }
{
    match fault {
        CheckTextsFault::Graph(fault) => of_graph_fault(fault),
        CheckTextsFault::NotAccepted { line, cause } => {
            with_cause(NOT_ACCEPTED, number_of_check_cause(cause), line)
        }
        CheckTextsFault::TooManyHypotheses { count } => of_hypotheses(count),
        CheckTextsFault::TooMuchInput => plain(TOO_MUCH_INPUT),
        CheckTextsFault::NoMemory => plain(NO_MEMORY),
    }
}

/// The answer where there are no questions.
pub(crate) fn of_ask_fault(fault: AskTextsFault) -> TfpgAnswer
    ensures { result ≡ answer_of_ask_fault fault }
{
    match fault {
        AskTextsFault::OutOfRange => plain(OUT_OF_RANGE),
        AskTextsFault::TooMuchInput => plain(TOO_MUCH_INPUT),
        AskTextsFault::Graph(fault) => of_graph_fault(fault),
        AskTextsFault::TooManyHypotheses { count } => of_hypotheses(count),
        AskTextsFault::NoMemory => plain(NO_MEMORY),
    }
}

/// The answer where there are no forecasts.
pub(crate) fn of_predict_fault(fault: PredictTextsFault) -> TfpgAnswer
    ensures { result ≡ answer_of_predict_fault fault }
{
    match fault {
        PredictTextsFault::OutOfRange => plain(OUT_OF_RANGE),
        PredictTextsFault::TooMuchInput => plain(TOO_MUCH_INPUT),
        PredictTextsFault::Graph(fault) => of_graph_fault(fault),
        PredictTextsFault::Probe(fault) => of_probe_fault(fault),
        PredictTextsFault::TooManyHypotheses { count } => of_hypotheses(count),
        PredictTextsFault::NoMemory => plain(NO_MEMORY),
    }
}

/// The answer for a node that takes no probe.
fn of_probe_fault(fault: ProbeFault) -> TfpgAnswer
    ensures { result ≡ answer_of_probe_fault fault }
{
    match fault {
        ProbeFault::TooManyNodes => no_room_for(GraphCause::TooManyNodes),
        ProbeFault::TooManyEdges => no_room_for(GraphCause::TooManyEdges),
        ProbeFault::UnknownNode => plain(NO_SUCH),
    }
}

/// The answer for a graph that has no room for a probe, since this would be wrong with it.
fn no_room_for(cause: GraphCause) -> TfpgAnswer
    ensures { result ≡ refused FULL_GRAPH (graph_cause_number cause) 0 }
{
    with_cause(FULL_GRAPH, number_of_graph_cause(cause), 0)
}

/// The answer where there is no verdict.
pub(crate) fn of_explain_fault(fault: ExplainTextsFault) -> TfpgAnswer
    ensures { result ≡ answer_of_explain_fault fault }
{
    match fault {
        ExplainTextsFault::TooMuchInput => plain(TOO_MUCH_INPUT),
        ExplainTextsFault::Graph(fault) => of_graph_fault(fault),
        ExplainTextsFault::BadMap { line } => with_cause(BAD_MAP, 0, line),
        ExplainTextsFault::NoMemory => plain(NO_MEMORY),
    }
}

/// The answer where no session is opened.
pub(crate) fn of_open_fault(fault: OpenFault) -> TfpgAnswer
    ensures { result ≡ answer_of_open_fault fault }
{
    match fault {
        OpenFault::OutOfRange => plain(OUT_OF_RANGE),
        OpenFault::Graph(fault) => of_graph_fault(fault),
        OpenFault::TooManyHypotheses { count } => of_hypotheses(count),
        OpenFault::NoMemory => plain(NO_MEMORY),
    }
}

/// The answer where a line has no block.
pub(crate) fn of_event_fault(fault: EventFault) -> TfpgAnswer
    ensures { result ≡ answer_of_event_fault fault }
{
    match fault {
        EventFault::NoMemory => plain(NO_MEMORY),
        EventFault::Ended => plain(ENDED),
    }
}

/// The number of what is wrong with a graph.
fn number_of_graph_cause(cause: GraphCause) -> u32
    ensures { result ≡ graph_cause_number cause }
{
    match cause {
        GraphCause::BadHeader => 1,
        GraphCause::BadLine => 2,
        GraphCause::BadName => 3,
        GraphCause::DuplicateName => 4,
        GraphCause::UnknownName => 5,
        GraphCause::BadNumber => 6,
        GraphCause::NumberTooLarge => 7,
        GraphCause::MinOverMax => 8,
        GraphCause::EdgeIntoFailure => 9,
        GraphCause::SelfEdge => 10,
        GraphCause::DuplicateEdge => 11,
        GraphCause::NoModes => 12,
        GraphCause::NoIncoming => 13,
        GraphCause::ZeroCycle => 14,
        GraphCause::TooManyNodes => 15,
        GraphCause::TooManyFailures => 16,
        GraphCause::TooManyEdges => 17,
        GraphCause::TooManyModes => 18,
        GraphCause::TooManyIncoming => 19,
        GraphCause::MissingEnd => 20,
        GraphCause::AfterEnd => 21,
    }
}

/// The number of why a report is refused.
fn number_of_check_cause(cause: CheckCause) -> u32
    ensures { result ≡ check_cause_number cause }
{
    match cause {
        CheckCause::AfterClosed => 1,
        CheckCause::NotReusable => 2,
        CheckCause::NotAClause => 3,
        CheckCause::NotAFact => 4,
        CheckCause::NotOnPath => 5,
        CheckCause::Unchained => 6,
        CheckCause::NotNegative => 7,
        CheckCause::BadReport => 8,
        CheckCause::Surplus => 9,
        CheckCause::WrongRound => 10,
        CheckCause::WrongHypothesis => 11,
        CheckCause::WrongRanked => 12,
        CheckCause::NotATrace => 13,
        CheckCause::WrongOpen => 14,
        CheckCause::WrongRejected => 15,
        CheckCause::WrongStatus => 16,
        CheckCause::WrongCounts => 17,
        CheckCause::EndsEarly => 18,
        CheckCause::BadMap => 19,
        CheckCause::BadScript => 20,
    }
}
