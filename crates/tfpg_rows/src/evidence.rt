//! What clauses, reasons and times come to by a graph and a log. A line names them by numbers, so that it can also name what is not there.

ghost use Rattle.std.specs.Prelude.{IfOk};
ghost use Rattle.tfpg_log.specs.Log.{IsLogOf};

use crate::bytes::{append_number, numbers_of, words_of};
use crate::row::{NamedFile, Row};
use crate::texts::text_named;
use itoa::Buffer;
use std::alloc::Global;
use tfpg_base::{Constraint, NEVER, NoMemory, Set, append_line};
use tfpg_clause::{MAX_CONSTRAINTS, constraint, count, fact, violated};
use tfpg_evidence::{ClauseName, Reason};
use tfpg_graph::{Graph, GraphRefusal, read};
use tfpg_log::Log;

/// Appends what each line of the input comes to, by the texts of the files of a graph and of a log. Of a text that is no graph nothing is
/// said.
pub(crate) fn append_evidence(
    alloc: Global,
    words: &[&[u8]],
    files: &[NamedFile],
    row: &Row,
    into: &mut Vec<u8>,
) -> Result<(), NoMemory> {
    let [graph, log] = words else {
        return Ok(());
    };
    let lines = row.changed_input(alloc)?;
    match read(alloc, text_named(files, graph)) {
        Ok(graph) => append_by_graph(alloc, &graph, text_named(files, log), &lines, into),
        Err(GraphRefusal::NoMemory) => Err(NoMemory),
        Err(GraphRefusal::Fault(_)) => Ok(()),
    }
}

/// Appends what each of the lines comes to, by the graph and the text of a log.
fn append_by_graph(
    alloc: Global,
    graph: &Graph,
    text: &[u8],
    lines: &[u8],
    into: &mut Vec<u8>,
) -> Result<(), NoMemory> {
    let log = log_of(alloc, graph, text)?;
    for line in lines.split(|byte| *byte == b'\n') {
        if !line.is_empty() {
            append_line(into, &[b"|", line])?;
            append_said(alloc, graph, &log, line, into)?;
        }
    }
    Ok(())
}

/// The log of the lines of the text, without those that are refused.
fn log_of(alloc: Global, graph: &Graph, text: &[u8]) -> Result<Log, NoMemory>
    ensures { IfOk result (IsLogOf graph.now) }
{
    let mut log = Log::new(alloc);
    for line in text.split(|byte| *byte == b'\n') {
        let _offered = log.offer(graph, line)?;
    }
    Ok(log)
}

/// Appends what the line comes to: a clause, a reason, or times.
fn append_said(
    alloc: Global,
    graph: &Graph,
    log: &Log,
    line: &[u8],
    into: &mut Vec<u8>,
) -> Result<(), NoMemory>
    requires { IsLogOf graph.now log.now }
{
    let words = words_of(alloc, line)?;
    let Some((kind, others)) = words.split_first() else {
        return Ok(());
    };
    let numbers = numbers_of(alloc, others)?;
    if let Some(name) = clause_of(kind, &numbers) {
        append_clause(graph, log, name, into)
    } else if let Some(reason) = reason_of(kind, &numbers) {
        append_fact(graph, log, reason, into)
    } else {
        append_violated(graph, log, &numbers, into)
    }
}

/// The clause of this kind with the number of a node or an edge, of a span, and a horizon.
fn clause_of(kind: &[u8], numbers: &[u64]) -> Option<ClauseName> {
    let [number, span, horizon] = numbers else {
        return None;
    };
    let (number, span, horizon) = (small(*number), small(*span), *horizon);
    match kind {
        b"ormay" => Some(ClauseName::OrMay {
            node: number,
            span,
            horizon,
        }),
        b"andmay" => Some(ClauseName::AndMay {
            edge: number,
            span,
            horizon,
        }),
        b"ormust" => Some(ClauseName::OrMust {
            edge: number,
            span,
            horizon,
        }),
        b"andmust" => Some(ClauseName::AndMust {
            node: number,
            span,
            horizon,
        }),
        _ => None,
    }
}

/// The reason of this kind with these numbers.
fn reason_of(kind: &[u8], numbers: &[u64]) -> Option<Reason> {
    match numbers {
        [number] => reason_of_one(kind, small(*number)),
        [first, second] => reason_of_two(kind, *first, *second),
        _ => None,
    }
}

/// The reason of this kind with the number of a node or an event.
fn reason_of_one(kind: &[u8], number: u32) -> Option<Reason> {
    match kind {
        b"zero" => Some(Reason::Zero { node: number }),
        b"top" => Some(Reason::Top { node: number }),
        b"from" => Some(Reason::From { event: number }),
        b"upto" => Some(Reason::Upto { event: number }),
        _ => None,
    }
}

/// The reason of this kind with these two numbers.
fn reason_of_two(kind: &[u8], first: u64, second: u64) -> Option<Reason> {
    match kind {
        b"unreached" => Some(Reason::Unreached {
            node: small(first),
            horizon: second,
        }),
        b"quiet" => Some(Reason::Quiet {
            event: small(first),
            node: small(second),
        }),
        b"pick" => Some(Reason::Pick {
            split: first,
            place: small(second),
        }),
        _ => None,
    }
}

/// The number, and the greatest of 32 bits in place of a greater one.
fn small(number: u64) -> u32 {
    u32::try_from(number).unwrap_or(u32::MAX)
}

/// Appends how many alternatives the clause has, and each of their constraints. There are none at the places before the first and after the
/// last, which are asked for too.
fn append_clause(
    graph: &Graph,
    log: &Log,
    name: ClauseName,
    into: &mut Vec<u8>,
) -> Result<(), NoMemory> {
    let alternatives = match count(graph, log, name) {
        Ok(alternatives) => {
            into.extend_from_slice(b"| alternatives ")?;
            append_number(u64::from(alternatives), into)?;
            into.push(b'\n')?;
            alternatives
        }
        Err(_) => {
            into.extend_from_slice(b"| no clause\n")?;
            0
        }
    };
    for alternative in 0..=alternatives.saturating_add(1) {
        append_alternative(graph, log, name, alternative, into)?;
    }
    Ok(())
}

/// Appends the constraints of the alternative of this number.
fn append_alternative(
    graph: &Graph,
    log: &Log,
    name: ClauseName,
    alternative: u32,
    into: &mut Vec<u8>,
) -> Result<(), NoMemory> {
    for place in 0..=MAX_CONSTRAINTS + 1 {
        if let Ok(Some(found)) = constraint(graph, log, name, alternative, place) {
            into.extend_from_slice(b"| in ")?;
            append_number(u64::from(alternative), into)?;
            into.push(b' ')?;
            append_constraint(found, into)?;
        }
    }
    Ok(())
}

/// Appends the constraint: number 0 is the constant zero, and node `n` is number `n + 1`.
fn append_constraint(found: Constraint, into: &mut Vec<u8>) -> Result<(), NoMemory> {
    let (mut left, mut right, mut most) = (Buffer::new(), Buffer::new(), Buffer::new());
    append_line(
        into,
        &[
            left.format(found.left).as_bytes(),
            b"-",
            right.format(found.right).as_bytes(),
            b"<=",
            most.format(found.most).as_bytes(),
        ],
    )
}

/// Appends what the reason states of the set of the first failure mode.
fn append_fact(graph: &Graph, log: &Log, reason: Reason, into: &mut Vec<u8>) -> Result<(), NoMemory>
    requires { IsLogOf graph.now log.now }
{
    if graph.failure_count() == 0 {
        return append_line(into, &[b"| no failure mode"]);
    }
    let reach = graph.reach(Set::empty().with(0));
    match fact(graph, log, &reach, reason) {
        Ok(found) => {
            into.extend_from_slice(b"| fact ")?;
            append_constraint(found, into)
        }
        Err(_) => append_line(into, &[b"| no fact"]),
    }
}

/// Appends the first clause that the times of all nodes violate.
fn append_violated(
    graph: &Graph,
    log: &Log,
    times: &[u64],
    into: &mut Vec<u8>,
) -> Result<(), NoMemory> {
    if times.len() == graph.node_count() as usize && times.iter().all(|time| *time <= NEVER) {
        return match violated(graph, log, times) {
            Some(name) => append_name(name, into),
            None => append_line(into, &[b"| no clause is violated"]),
        };
    }
    append_line(into, &[b"| not understood"])
}

/// Appends the name of a clause that is violated.
fn append_name(name: ClauseName, into: &mut Vec<u8>) -> Result<(), NoMemory> {
    match name {
        ClauseName::OrMay {
            node,
            span,
            horizon,
        } => append_words(b"ormay", node, span, horizon, into),
        ClauseName::AndMay {
            edge,
            span,
            horizon,
        } => append_words(b"andmay", edge, span, horizon, into),
        ClauseName::OrMust {
            edge,
            span,
            horizon,
        } => append_words(b"ormust", edge, span, horizon, into),
        ClauseName::AndMust {
            node,
            span,
            horizon,
        } => append_words(b"andmust", node, span, horizon, into),
    }
}

/// Appends the words of a clause that is violated.
fn append_words(
    kind: &[u8],
    number: u32,
    span: u32,
    horizon: u64,
    into: &mut Vec<u8>,
) -> Result<(), NoMemory> {
    let (mut first, mut second, mut third) = (Buffer::new(), Buffer::new(), Buffer::new());
    append_line(
        into,
        &[
            b"| violates",
            kind,
            first.format(number).as_bytes(),
            second.format(span).as_bytes(),
            third.format(horizon).as_bytes(),
        ],
    )
}
