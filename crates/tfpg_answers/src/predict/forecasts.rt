//! The text of a prediction: its line, and a forecast for each ranked hypothesis of the last round.

ghost use Rattle.std.specs.Prelude.{◌≡◌, ◌↔◌, ◌<◌, ◌≤◌, ◌∷◌, [], ℕ, List, All, AllPairs, Err, IfOk, OnOk};
ghost use Rattle.tfpg_base.specs.Append.{Appends};
ghost use Rattle.tfpg_base.specs.Lines.{lines_of};
ghost use Rattle.tfpg_base.specs.Terms.{AreReportTerms};
ghost use Rattle.tfpg_base.specs.declared.limits.TheConstants.{MAX_TIME};
ghost use Rattle.tfpg_evidence.specs.Findings.{findings_at, ranked_in_order};
ghost use Rattle.tfpg_hyp.specs.Hypotheses.{HasHypotheses};
ghost use Rattle.tfpg_hyp.specs.declared.limits.TheConstants.{MAX_HYPOTHESES};
ghost use Rattle.tfpg_predict.specs.LeastTime.{lookahead_of};
ghost use Rattle.tfpg_predict.specs.Probed.{IsProbeable};
ghost use Rattle.tfpg_diagnose.specs.Diagnosed.{HasDiagnosed, IsDiagnosed};
ghost use Rattle.tfpg_answers.specs.Forecasts.{HasForecasts, predict_line, prediction, prediction_of, time_ahead};
ghost use Rattle.tfpg_answers.specs.Probing.{CanForecast};
ghost use Rattle.tfpg_answers.specs.inside.Forecasting.{AddsForecasts, ForecastsFollow, IsAskable, IsQuery};

use super::forecast_lines::append_outlook;
use super::probing::ForecastRequest;
use super::query::Query;
use itoa::Buffer;
use std::alloc::Global;
use std::sync::ledger::Ledger;
use tfpg_base::{MAX_TIME, NoMemory, Steps, append_line};
use tfpg_diagnose::Diagnosis;
use tfpg_evidence::{Finding, Round, finding_numbered};
use tfpg_graph::Graph;
use tfpg_hyp::TableFault;
use tfpg_hyp::laws::a_round_is_of_its_graph;
use tfpg_predict::{forecast, probed};

/// Diagnoses the lines of the log on the graph, and returns the prediction for the node.
pub fn forecasts_text<L: Ledger>(
    alloc: Global,
    graph: Graph,
    log_text: &[u8],
    asked: &ForecastRequest<'_>,
    node: u32,
    work: &mut Steps<L>,
) -> Result<Vec<u8>, TableFault>
    requires terms { AreReportTerms asked.now.terms }
    requires probe { CanForecast graph node asked.now.ahead }
    ensures forecasts { IfOk result (λ text. HasForecasts graph (prediction_of asked.now) node (lines_of log_text.now) text.items) }
    ensures too_many { (count : ℕ) → (result ≡ Err (TableFault.TooMany count)) ↔
        ((MAX_HYPOTHESES < count) × HasHypotheses graph asked.now.terms count) }
{
    let mut diagnosis = Diagnosis::new(alloc, graph, asked.terms)?;
    Ok(forecasts_after(alloc, &mut diagnosis, log_text, asked, node, work)?)
}

/// Diagnoses the lines of the log, and returns the prediction for the node.
fn forecasts_after<L: Ledger>(
    alloc: Global,
    diagnosis: &mut Diagnosis,
    log_text: &[u8],
    asked: &ForecastRequest<'_>,
    node: u32,
    work: &mut Steps<L>,
) -> Result<Vec<u8>, NoMemory>
    requires new { HasDiagnosed diagnosis.old.engine.graph diagnosis.old.engine.terms [] diagnosis.old }
    requires budget { 1 ≤ diagnosis.old.engine.terms.budget }
    requires probe { CanForecast diagnosis.old.engine.graph node asked.now.ahead }
    ensures { IfOk result (λ text. HasForecasts diagnosis.old.engine.graph
        (prediction diagnosis.old.engine.terms asked.now.ahead asked.now.node.now) node (lines_of log_text.now) text.items) }
{
    diagnosis.take_text(alloc, log_text, work)?;
    predicted_text(alloc, diagnosis, asked, node, work)
}

/// The prediction for the node by a diagnosis.
fn predicted_text<L: Ledger>(
    alloc: Global,
    diagnosis: &Diagnosis,
    asked: &ForecastRequest<'_>,
    node: u32,
    work: &mut Steps<L>,
) -> Result<Vec<u8>, NoMemory>
    requires diagnosed { IsDiagnosed diagnosis.now }
    requires budget { 1 ≤ diagnosis.now.engine.terms.budget }
    requires probe { CanForecast diagnosis.now.engine.graph node asked.now.ahead }
    ensures { (lines : List (List ℕ)) → HasDiagnosed diagnosis.now.engine.graph diagnosis.now.engine.terms lines diagnosis.entry.now →
        IfOk result (λ text. HasForecasts diagnosis.now.engine.graph
        (prediction diagnosis.now.engine.terms asked.now.ahead asked.now.node.now) node lines text.items) }
{
    a_round_is_of_its_graph();
    let log = diagnosis.engine.log();
    log.is_always_ordered();
    let now = log.now();
    let to = time_ahead(now, asked.ahead);
    let mut text = Vec::new(alloc);
    append_predict_line(asked.node, now, to, &mut text)?;
    match &diagnosis.last {
        Some(last) => {
            append_forecasts(alloc, diagnosis, last, node, to, &mut text, work)?;
            Ok(text)
        }
        None => Ok(text),
    }
}

/// So many milliseconds after now, but not past the greatest time.
fn time_ahead(now: u64, ahead: u64) -> u64
    requires now { now ≤ MAX_TIME }
    requires not_far { ahead ≤ MAX_TIME }
    ensures { result ≡ time_ahead now ahead }
{
    (now + ahead).min(MAX_TIME)
}

/// Appends the line that says what is predicted.
fn append_predict_line(name: &[u8], now: u64, to: u64, into: &mut Vec<u8>) -> Result<(), NoMemory>
    ensures { Appends result into.old.items into.new.items (predict_line name.now now to) }
{
    let mut now_digits = Buffer::new();
    let mut to_digits = Buffer::new();
    append_line(
        into,
        &[
            b"predict",
            name,
            b"now",
            now_digits.format(now).as_bytes(),
            b"to",
            to_digits.format(to).as_bytes(),
        ],
    )
}

/// Appends a forecast for each ranked hypothesis of the round, in ranking order. The names of steps are those of a probe of the node.
fn append_forecasts<L: Ledger>(
    alloc: Global,
    diagnosis: &Diagnosis,
    last: &Round,
    node: u32,
    to: u64,
    into: &mut Vec<u8>,
    work: &mut Steps<L>,
) -> Result<(), NoMemory>
    requires probeable { IsProbeable (lookahead_of diagnosis.now.engine.graph diagnosis.now.engine.log node to) }
    requires budget { 1 ≤ diagnosis.now.engine.terms.budget }
    requires askable { All (IsAskable diagnosis.now.engine.graph) last.now.findings }
    requires rising { AllPairs (λ earlier later. earlier.number < later.number) last.now.findings }
    ensures { OnOk result (ForecastsFollow (lookahead_of diagnosis.now.engine.graph diagnosis.now.engine.log node to)
        diagnosis.now.engine.terms.budget (ranked_in_order last.entry.now) into.old.items into.new.items) }
{
    let graph = diagnosis.engine.graph();
    let log = diagnosis.engine.log();
    graph.is_always_valid();
    log.is_always_ordered();
    let probed = probed(alloc, graph, log, node, to, to)?;
    let query = Query {
        graph,
        log,
        probed: &probed.graph,
        node,
        to,
        budget: diagnosis.engine.budget(),
    };
    append_ranked(
        alloc,
        &query,
        last.findings.as_slice(),
        last.order.as_slice(),
        into,
        work,
    )
}

/// Appends a forecast for each of the hypotheses of these numbers.
fn append_ranked<L: Ledger>(
    alloc: Global,
    query: &Query<'_>,
    findings: &[Finding],
    order: &[u32],
    into: &mut Vec<u8>,
    work: &mut Steps<L>,
) -> Result<(), NoMemory>
    requires query { IsQuery query.now }
    requires askable { All (IsAskable query.now.graph.now) findings.now }
    requires rising { AllPairs (λ earlier later. earlier.number < later.number) findings.now }
    ensures { OnOk result (AddsForecasts query.now (findings_at findings.now order.now) into.old.items into.new.items) }
{
    for number in order {
        append_numbered(alloc, query, findings, *number, into, work)?;
    }
    Ok(())
}

/// Appends a forecast for the hypothesis of this number.
fn append_numbered<L: Ledger>(
    alloc: Global,
    query: &Query<'_>,
    findings: &[Finding],
    number: u32,
    into: &mut Vec<u8>,
    work: &mut Steps<L>,
) -> Result<(), NoMemory>
    requires query { IsQuery query.now }
    requires askable { All (IsAskable query.now.graph.now) findings.now }
    requires rising { AllPairs (λ earlier later. earlier.number < later.number) findings.now }
    ensures { OnOk result (AddsForecasts query.now (findings_at findings.now (number ∷ [])) into.old.items into.new.items) }
{
    match finding_numbered(findings, number) {
        Some(finding) => append_forecast(alloc, query, finding, into, work),
        None => Ok(()),
    }
}

/// Appends a forecast for the hypothesis of the finding.
fn append_forecast<L: Ledger>(
    alloc: Global,
    query: &Query<'_>,
    finding: &Finding,
    into: &mut Vec<u8>,
    work: &mut Steps<L>,
) -> Result<(), NoMemory>
    requires query { IsQuery query.now }
    requires askable { IsAskable query.now.graph.now finding.now }
    ensures { OnOk result (AddsForecasts query.now (finding.entry.now ∷ []) into.old.items into.new.items) }
{
    let outlook = forecast(
        alloc,
        query.graph,
        query.log,
        finding.set,
        finding.doubts,
        query.node,
        query.to,
        query.budget,
        work,
    )?;
    append_outlook(alloc, query.graph, query.probed, finding, &outlook, into)
}
