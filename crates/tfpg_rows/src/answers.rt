//! The calls over texts in memory that answer `ask`, `predict` and `explain`, and what came of them.

use crate::answer::append_made;
use crate::bytes::number_of;
use crate::row::{NamedFile, Row};
use crate::texts::{end_of_graph_fault, over_texts, terms_of, text_named};
use std::alloc::Global;
use tfpg_answers::{
    AskTextsFault, ExplainTextsFault, ForecastRequest, PredictTextsFault, ask_texts, explain_texts,
    predict_texts,
};
use tfpg_base::NoMemory;
use tfpg_map::NoMap;
use tfpg_run::End;
use tfpg_words::UsageCause;

/// Asks after the input as a log, by the text of a file and the terms that the words say, and appends what came of it.
pub(crate) fn append_asked(
    alloc: Global,
    words: &[&[u8]],
    files: &[NamedFile],
    row: &Row,
    into: &mut Vec<u8>,
) -> Result<(), NoMemory> {
    let [k, doubt, budget, graph] = words else {
        return Ok(());
    };
    let log = row.changed_input(alloc)?;
    let made = match ask_texts(
        alloc,
        text_named(files, graph),
        &log,
        terms_of(k, doubt, budget),
    ) {
        Ok(questions) => over_texts(alloc, End::Done, questions),
        Err(fault) => over_texts(alloc, end_of_ask_fault(fault), Vec::new(alloc)),
    };
    append_made(alloc, &made, &row.view, into)
}

/// Predicts a node after the input as a log, by the text of a file and the numbers that the words say, and appends what came of it.
pub(crate) fn append_predicted(
    alloc: Global,
    words: &[&[u8]],
    files: &[NamedFile],
    row: &Row,
    into: &mut Vec<u8>,
) -> Result<(), NoMemory> {
    let [k, doubt, budget, ahead, graph, node] = words else {
        return Ok(());
    };
    let asked = ForecastRequest {
        terms: terms_of(k, doubt, budget),
        ahead: number_of(ahead),
        node,
    };
    let log = row.changed_input(alloc)?;
    let made = match predict_texts(alloc, text_named(files, graph), &log, &asked) {
        Ok(forecasts) => over_texts(alloc, End::Done, forecasts),
        Err(fault) => over_texts(alloc, end_of_predict_fault(fault), Vec::new(alloc)),
    };
    append_made(alloc, &made, &row.view, into)
}

/// Judges the input as a map, by the texts of the files of a graph and of a log, and appends what came of it.
pub(crate) fn append_explained(
    alloc: Global,
    words: &[&[u8]],
    files: &[NamedFile],
    row: &Row,
    into: &mut Vec<u8>,
) -> Result<(), NoMemory> {
    let [graph, log] = words else {
        return Ok(());
    };
    let map = row.changed_input(alloc)?;
    let made = match explain_texts(
        alloc,
        text_named(files, graph),
        text_named(files, log),
        &map,
    ) {
        Ok(verdict) => over_texts(alloc, End::Done, verdict),
        Err(fault) => over_texts(alloc, end_of_explain_fault(fault), Vec::new(alloc)),
    };
    append_made(alloc, &made, &row.view, into)
}

/// How `ask` ends with this fault.
fn end_of_ask_fault(fault: AskTextsFault) -> End {
    match fault {
        AskTextsFault::OutOfRange => End::Usage {
            cause: UsageCause::OutOfRange,
        },
        AskTextsFault::TooMuchInput => End::TooMuchInput,
        AskTextsFault::Graph(fault) => end_of_graph_fault(fault),
        AskTextsFault::TooManyHypotheses { count } => End::TooManyHypotheses { count },
        AskTextsFault::NoMemory => End::NoMemory,
    }
}

/// How `predict` ends with this fault.
fn end_of_predict_fault(fault: PredictTextsFault) -> End {
    match fault {
        PredictTextsFault::OutOfRange => End::Usage {
            cause: UsageCause::OutOfRange,
        },
        PredictTextsFault::TooMuchInput => End::TooMuchInput,
        PredictTextsFault::Graph(fault) => end_of_graph_fault(fault),
        PredictTextsFault::Probe(fault) => End::from(fault),
        PredictTextsFault::TooManyHypotheses { count } => End::TooManyHypotheses { count },
        PredictTextsFault::NoMemory => End::NoMemory,
    }
}

/// How `explain` ends with this fault.
fn end_of_explain_fault(fault: ExplainTextsFault) -> End {
    match fault {
        ExplainTextsFault::TooMuchInput => End::TooMuchInput,
        ExplainTextsFault::Graph(fault) => end_of_graph_fault(fault),
        ExplainTextsFault::BadMap { line } => End::from(NoMap::Refused { line }),
        ExplainTextsFault::NoMemory => End::NoMemory,
    }
}
