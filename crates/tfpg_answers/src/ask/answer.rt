//! The text of the questions.

ghost use Rattle.std.specs.Prelude.{◌≤◌, ◌<◌, All, OnOk, flat_map, length};
ghost use Rattle.tfpg_base.specs.Append.{Appends};
ghost use Rattle.tfpg_base.specs.Set.{Rises};
ghost use Rattle.tfpg_whatif.specs.Outcomes.{asked_of};
ghost use Rattle.tfpg_answers.specs.Questions.{counts_line, first_line, question_line};
ghost use Rattle.tfpg_answers.specs.inside.Asked.{AppendsAnswer};

use itoa::Buffer;
use std::alloc::Global;
use std::sync::ledger::Ledger;
use tfpg_base::{NoMemory, NumberList, Steps, append_line};
use tfpg_engine::Engine;
use tfpg_evidence::Round;
use tfpg_graph::Graph;
use tfpg_log::Log;
use tfpg_whatif::{AskFault, Question, questions};

/// Appends the first line after the log, by its last round.
pub(super) fn append_first_line(
    log: &Log,
    last: &Option<Round>,
    into: &mut Vec<u8>,
) -> Result<(), NoMemory>
    ensures { Appends result into.old.items into.new.items (first_line log.now last.now) }
{
    match last {
        Some(round) => {
            append_counts_line(log.now(), round.counts.ranked, round.counts.unsettled, into)
        }
        None => append_counts_line(log.now(), 0, 0, into),
    }
}

/// Appends the line that says how many hypotheses are ranked, and how many open.
fn append_counts_line(
    now: u64,
    ranked: u32,
    unsettled: u32,
    into: &mut Vec<u8>,
) -> Result<(), NoMemory>
    ensures { Appends result into.old.items into.new.items (counts_line now ranked unsettled) }
{
    let mut now_digits = Buffer::new();
    let mut ranked_digits = Buffer::new();
    let mut open_digits = Buffer::new();
    append_line(
        into,
        &[
            b"questions",
            b"now",
            now_digits.format(now).as_bytes(),
            b"ranked",
            ranked_digits.format(ranked).as_bytes(),
            b"open",
            open_digits.format(unsettled).as_bytes(),
        ],
    )
}

/// Appends the questions of the hypotheses of these numbers, or the line that says that the log is full.
pub(super) fn append_answer<L: Ledger>(
    alloc: Global,
    engine: &Engine,
    among: &NumberList,
    into: &mut Vec<u8>,
    work: &mut Steps<L>,
) -> Result<(), NoMemory>
    requires among { All (λ number. number < length engine.now.table.hypotheses) among.now }
    requires rising { Rises among.now }
    requires budget { 1 ≤ engine.now.terms.budget }
    ensures { OnOk result (AppendsAnswer (asked_of engine.now among.now engine.now.terms.budget)
        into.old.items into.new.items) }
{
    match questions(alloc, engine, among, engine.budget(), work) {
        Ok(questions) => append_questions(engine.graph(), questions.as_slice(), into),
        Err(AskFault::Refused(_)) => append_line(into, &[b"refused", b"LogFull"]),
        Err(AskFault::NoMemory) => Err(NoMemory),
    }
}

/// Appends a line for each question.
fn append_questions(
    graph: &Graph,
    questions: &[Question],
    into: &mut Vec<u8>,
) -> Result<(), NoMemory>
    requires { All (λ (question : Question). question.node < length graph.now.nodes) questions.now }
    ensures { Appends result into.old.items into.new.items (flat_map (question_line graph.now) questions.now) }
{
    for question in questions {
        append_question(graph, question, into)?;
    }
    Ok(())
}

/// Appends the line of a question.
fn append_question(graph: &Graph, question: &Question, into: &mut Vec<u8>) -> Result<(), NoMemory>
    requires { question.now.node < length graph.now.nodes }
    ensures { Appends result into.old.items into.new.items (question_line graph.now question.now) }
{
    let mut silent_digits = Buffer::new();
    let mut alarm_digits = Buffer::new();
    let mut unknown_digits = Buffer::new();
    append_line(
        into,
        &[
            b"ask",
            graph.name(question.node),
            b"silent",
            silent_digits.format(question.silent_out).as_bytes(),
            b"alarm",
            alarm_digits.format(question.alarm_out).as_bytes(),
            b"unknown",
            unknown_digits.format(question.unknown).as_bytes(),
        ],
    )
}
