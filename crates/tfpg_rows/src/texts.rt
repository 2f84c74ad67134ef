//! The calls over texts in memory, and what came of them.

use crate::answer::append_made;
use crate::bytes::number_of;
use crate::made::Made;
use crate::row::{NamedFile, Row};
use crate::runs::append_difference;
use itoa::Buffer;
use std::alloc::Global;
use tfpg_base::{NoMemory, Terms, append_line};
use tfpg_diagnose::{CheckTextsFault, ReportFault, Session, check_texts, diagnose_texts};
use tfpg_graph::GraphFault;
use tfpg_run::End;
use tfpg_words::UsageCause;

/// Makes the report of the input, by the text of a file and the terms that the words say, and appends what came of it.
pub(crate) fn append_diagnosed(
    alloc: Global,
    words: &[&[u8]],
    files: &[NamedFile],
    row: &Row,
    into: &mut Vec<u8>,
) -> Result<(), NoMemory> {
    let [k, doubt, budget, graph] = words else {
        return Ok(());
    };
    let terms = terms_of(k, doubt, budget);
    let log = row.changed_input(alloc)?;
    append_reports(alloc, text_named(files, graph), &log, terms, row, into)
}

/// Judges the input as a report, by the texts of the files of a graph and of a log, and appends what came of it.
pub(crate) fn append_checked(
    alloc: Global,
    words: &[&[u8]],
    files: &[NamedFile],
    row: &Row,
    into: &mut Vec<u8>,
) -> Result<(), NoMemory> {
    let [graph, log] = words else {
        return Ok(());
    };
    let report = row.changed_input(alloc)?;
    append_judged(
        alloc,
        text_named(files, graph),
        text_named(files, log),
        &report,
        row,
        into,
    )
}

/// The terms that these words say.
pub(crate) fn terms_of(k: &[u8], doubt: &[u8], budget: &[u8]) -> Terms {
    Terms {
        k: small_number_of(k),
        doubt: small_number_of(doubt),
        budget: number_of(budget),
    }
}

/// The text of the file of this name: empty where there is none.
pub(crate) fn text_named<'a>(files: &'a [NamedFile], name: &[u8]) -> &'a [u8] {
    match files
        .iter()
        .find(|file| file.name.as_str().as_bytes() == name)
    {
        None => &[],
        Some(file) => &file.text,
    }
}

/// The number that a word is, and the greatest of 32 bits in place of a greater one.
fn small_number_of(word: &[u8]) -> u32 {
    u32::try_from(number_of(word)).unwrap_or(u32::MAX)
}

/// Appends the report of the log, what came of it line by line where it is not the same, and how it is judged.
fn append_reports(
    alloc: Global,
    graph: &[u8],
    log: &[u8],
    terms: Terms,
    row: &Row,
    into: &mut Vec<u8>,
) -> Result<(), NoMemory> {
    let made = made_at_once(alloc, graph, log, terms);
    append_made(alloc, &made, &row.view, into)?;
    let again = made_by_lines(alloc, graph, log, terms)?;
    append_difference(alloc, &made, &again, b"line by line", row, into)?;
    if made.end == End::Done {
        append_judged(alloc, graph, log, &made.written, row, into)?;
    }
    Ok(())
}

/// The report of the log, made by one call.
fn made_at_once(alloc: Global, graph: &[u8], log: &[u8], terms: Terms) -> Made {
    match diagnose_texts(alloc, graph, log, terms) {
        Ok(report) => over_texts(alloc, End::Done, report),
        Err(fault) => over_texts(alloc, end_of_report_fault(fault), Vec::new(alloc)),
    }
}

/// The report of the log, made by a session that takes its lines one by one.
fn made_by_lines(alloc: Global, graph: &[u8], log: &[u8], terms: Terms) -> Result<Made, NoMemory> {
    match Session::open(alloc, graph, terms) {
        Ok(mut session) => {
            let mut report = Vec::new(alloc);
            let end = take_lines(alloc, &mut session, log, &mut report)?;
            Ok(over_texts(alloc, end, report))
        }
        Err(fault) => {
            let end = end_of_report_fault(ReportFault::from(fault));
            Ok(over_texts(alloc, end, Vec::new(alloc)))
        }
    }
}

/// Appends the first line of the report, and the blocks of the lines of the log, until the session runs out of memory.
fn take_lines(
    alloc: Global,
    session: &mut Session,
    log: &[u8],
    into: &mut Vec<u8>,
) -> Result<End, NoMemory> {
    match session.head(alloc) {
        Ok(head) => into.extend_from_slice(&head)?,
        Err(NoMemory) => return Ok(End::NoMemory),
    }
    for line in log.split_inclusive(|byte| *byte == b'\n') {
        let text = line.strip_suffix(b"\n".as_slice()).unwrap_or(line);
        match session.line(alloc, text) {
            Ok(block) => into.extend_from_slice(&block)?,
            Err(_) => return Ok(End::NoMemory),
        }
    }
    Ok(End::Done)
}

/// Appends the line for a report that is accepted, or why it is not, as `check` does.
fn append_judged(
    alloc: Global,
    graph: &[u8],
    log: &[u8],
    report: &[u8],
    row: &Row,
    into: &mut Vec<u8>,
) -> Result<(), NoMemory> {
    let mut line = Vec::new(alloc);
    let end = match check_texts(alloc, graph, log, report) {
        Ok(rounds) => {
            append_line(
                &mut line,
                &[b"accepted", Buffer::new().format(rounds).as_bytes()],
            )?;
            End::Done
        }
        Err(fault) => end_of_check_fault(fault),
    };
    append_made(alloc, &over_texts(alloc, end, line), &row.view, into)
}

/// What came of a call that asks for no file and tells no panel.
pub(crate) fn over_texts(alloc: Global, end: End, written: Vec<u8>) -> Made {
    Made {
        end,
        written,
        asked: 0,
        panels: Vec::new(alloc),
    }
}

/// How `diagnose` ends with this fault.
fn end_of_report_fault(fault: ReportFault) -> End {
    match fault {
        ReportFault::OutOfRange => End::Usage {
            cause: UsageCause::OutOfRange,
        },
        ReportFault::Graph(fault) => end_of_graph_fault(fault),
        ReportFault::TooManyHypotheses { count } => End::TooManyHypotheses { count },
        ReportFault::TooMuchInput => End::TooMuchInput,
        ReportFault::NoMemory => End::NoMemory,
    }
}

/// How `check` ends with this fault.
fn end_of_check_fault(fault: CheckTextsFault) -> End {
    match fault {
        CheckTextsFault::Graph(fault) => end_of_graph_fault(fault),
        CheckTextsFault::NotAccepted { line, cause } => End::NotAccepted { line, cause },
        CheckTextsFault::TooManyHypotheses { count } => End::TooManyHypotheses { count },
        CheckTextsFault::TooMuchInput => End::TooMuchInput,
        CheckTextsFault::NoMemory => End::NoMemory,
    }
}

/// How a command ends with this fault of its graph.
pub(crate) fn end_of_graph_fault(fault: GraphFault) -> End {
    End::Graph {
        line: fault.line,
        cause: fault.cause,
    }
}
