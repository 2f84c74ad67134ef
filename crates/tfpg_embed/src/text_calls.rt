//! The calls over whole texts.

ghost use Rattle.std.specs.Prelude.{◌≡◌, length};
ghost use Rattle.tfpg_diagnose.specs.texts.Checks.{checked_texts};
ghost use Rattle.tfpg_answers.specs.texts.ExplainedTexts.{explained_texts};
ghost use Rattle.tfpg_answers.specs.texts.PredictedTexts.{predicted_texts};
ghost use Rattle.tfpg_embed.specs.TextCalls.{AnswersAsk, AnswersCheck, AnswersExplain, AnswersPredict, AnswersReport, prediction_for, terms_of};

use crate::answer::{
    TfpgAnswer, of_ask_fault, of_check_fault, of_explain_fault, of_predict_fault, of_report_fault,
    with_count,
};
use crate::room::put_text;
use crate::status::DONE;
use std::alloc::Global;
use tfpg_answers::{ForecastRequest, ask_texts, explain_texts, predict_texts};
use tfpg_base::Terms;
use tfpg_diagnose::{check_texts, diagnose_texts};

/// The terms of a prediction: those of its diagnosis, and how many milliseconds past the last event it looks.
#[repr(C)]
#[derive(Clone, Copy, PartialEq, Eq)]
pub struct TfpgPredictionTerms {
    /// How many members a hypothesis has at most.
    pub k: u32,
    /// How many of them are monitors at most.
    pub doubt: u32,
    /// How many splits a hypothesis has at most in a round, and a search for a forecast.
    pub budget: u64,
    /// How many milliseconds past the last event.
    pub ahead: u64,
}

/// Writes the report of the lines of the log, for the graph that the text spells, on these terms, to the front of the room. The answer has
/// the number of its bytes, also if the room is too small, and then nothing is written.
#[unsafe(no_mangle)]
pub extern "C" fn tfpg_report(
    alloc: Global,
    graph: &[u8],
    log: &[u8],
    k: u32,
    doubt: u32,
    budget: u64,
    room: &mut [u8],
) -> TfpgAnswer
    ensures { AnswersReport graph.now (terms_of k doubt budget) log.now room.old room.new result }
{
    let terms = Terms { k, doubt, budget };
    match diagnose_texts(alloc, graph, log, terms) {
        Ok(report) => put_text(&report, room),
        Err(fault) => of_report_fault(fault),
    }
}

/// Judges the report by the graph that the text spells and the lines of the log. The answer has the number of its rounds, or the line and
/// the cause for which it is not accepted.
#[unsafe(no_mangle)]
pub extern "C" fn tfpg_check(alloc: Global, graph: &[u8], log: &[u8], report: &[u8]) -> TfpgAnswer
    ensures { AnswersCheck (checked_texts graph.now log.now report.now) result }
{
    match check_texts(alloc, graph, log, report) {
        Ok(rounds) => with_count(DONE, u64::from(rounds)),
        Err(fault) => of_check_fault(fault),
    }
}

/// Writes which questions would tell most after the lines of the log to the front of the room, as [`tfpg_report`] writes its report.
#[unsafe(no_mangle)]
pub extern "C" fn tfpg_ask(
    alloc: Global,
    graph: &[u8],
    log: &[u8],
    k: u32,
    doubt: u32,
    budget: u64,
    room: &mut [u8],
) -> TfpgAnswer
    ensures { AnswersAsk graph.now (terms_of k doubt budget) log.now room.old room.new result }
{
    let terms = Terms { k, doubt, budget };
    match ask_texts(alloc, graph, log, terms) {
        Ok(questions) => put_text(&questions, room),
        Err(fault) => of_ask_fault(fault),
    }
}

/// Writes when the node of this name becomes active at the earliest, by each ranked hypothesis after the lines of the log, to the front of
/// the room, as [`tfpg_report`] writes its report.
#[unsafe(no_mangle)]
pub extern "C" fn tfpg_predict(
    alloc: Global,
    graph: &[u8],
    log: &[u8],
    node: &[u8],
    terms: &TfpgPredictionTerms,
    room: &mut [u8],
) -> TfpgAnswer
    ensures { AnswersPredict (predicted_texts graph.now log.now (prediction_for terms.now node.now)) room.old room.new result }
{
    let asked = ForecastRequest {
        terms: Terms {
            k: terms.k,
            doubt: terms.doubt,
            budget: terms.budget,
        },
        ahead: terms.ahead,
        node,
    };
    match predict_texts(alloc, graph, log, &asked) {
        Ok(forecasts) => put_text(&forecasts, room),
        Err(fault) => of_predict_fault(fault),
    }
}

/// Writes whether the map explains the lines of the log, and else its first fault, to the front of the room, as [`tfpg_report`] writes its
/// report.
#[unsafe(no_mangle)]
pub extern "C" fn tfpg_explain(
    alloc: Global,
    graph: &[u8],
    log: &[u8],
    map: &[u8],
    room: &mut [u8],
) -> TfpgAnswer
    ensures { AnswersExplain (explained_texts graph.now log.now map.now) room.old room.new result }
{
    match explain_texts(alloc, graph, log, map) {
        Ok(verdict) => put_text(&verdict, room),
        Err(fault) => of_explain_fault(fault),
    }
}
