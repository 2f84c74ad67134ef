//! The forecasts of a node after a log, where graph and log are texts.

ghost use Rattle.std.specs.Prelude.{◌≡◌, ◌⊎◌, ◌≢◌, ◌↔◌, ◌<◌, ℕ, Err, IfErr, IfOk, IsOkUnless, IsTrue, OnOk};
ghost use Rattle.tfpg_base.specs.Lines.{lines_of};
ghost use Rattle.tfpg_base.specs.Terms.{AreReportTerms};
ghost use Rattle.tfpg_hyp.specs.Hypotheses.{HasHypotheses};
ghost use Rattle.tfpg_hyp.specs.declared.limits.TheConstants.{MAX_HYPOTHESES};
ghost use Rattle.tfpg_answers.specs.Forecasts.{HasForecasts, prediction_of};
ghost use Rattle.tfpg_answers.specs.Probing.{CanForecast};
ghost use Rattle.tfpg_answers.specs.declared.texts.fault.PredictTextsFault.{PredictTextsFault as WhyNoForecasts};
ghost use Rattle.tfpg_answers.specs.texts.PredictedTexts.{CanPredictTexts, HasForecastsOfTexts, IsInRange, IsPredictTextsFault, predicted_texts};

use super::fault::PredictTextsFault;
use crate::predict::{ForecastRequest, forecasts_text, probed_node};
use std::alloc::Global;
use std::marker::Brand;
use std::sync::ledger::{Blank, Ledger};
use tfpg_base::{LONGEST_FILE, MAX_TIME, Steps, Terms};
use tfpg_diagnose::are_report_terms;
use tfpg_graph::laws::a_text_has_at_most_one_first_fault;
use tfpg_graph::{Graph, read};
use tfpg_hyp::TableFault;
use tfpg_hyp::laws::the_table_is_one;

/// When the node that is asked about becomes active at the earliest, by each ranked hypothesis after the lines of the log, for the graph that
/// the text spells: what the program writes for `predict`.
pub fn predict_texts(
    alloc: Global,
    graph_text: &[u8],
    log_text: &[u8],
    asked: &ForecastRequest<'_>,
) -> Result<Vec<u8>, PredictTextsFault>
    ensures forecasts { IfOk result (λ text. HasForecastsOfTexts
        (predicted_texts graph_text.now log_text.now (prediction_of asked.now)) text.items) }
    ensures fault { IfErr result (IsPredictTextsFault (predicted_texts graph_text.now log_text.now (prediction_of asked.now))) }
    // Where the texts, the node and the numbers are right, there are forecasts, or memory ran out.
    ensures completes { CanPredictTexts (predicted_texts graph_text.now log_text.now (prediction_of asked.now)) →
        IsOkUnless result PredictTextsFault.NoMemory }
    // Where a fault stands in the way, it is the fault, or memory ran out.
    ensures refuses { (fault : WhyNoForecasts) → fault ≢ PredictTextsFault.NoMemory →
        IsPredictTextsFault (predicted_texts graph_text.now log_text.now (prediction_of asked.now)) fault →
        (result ≡ Err fault) ⊎ (result ≡ Err PredictTextsFault.NoMemory) }
{
    a_text_has_at_most_one_first_fault();
    the_table_is_one();
    forecasts_of_texts(alloc, graph_text, log_text, asked)
}

/// The same, with what its result says alone.
fn forecasts_of_texts(
    alloc: Global,
    graph_text: &[u8],
    log_text: &[u8],
    asked: &ForecastRequest<'_>,
) -> Result<Vec<u8>, PredictTextsFault>
    ensures forecasts { IfOk result (λ text. HasForecastsOfTexts
        (predicted_texts graph_text.now log_text.now (prediction_of asked.now)) text.items) }
    ensures can { OnOk result (CanPredictTexts (predicted_texts graph_text.now log_text.now (prediction_of asked.now))) }
    ensures fault { IfErr result (IsPredictTextsFault (predicted_texts graph_text.now log_text.now (prediction_of asked.now))) }
{
    if !is_in_range(asked.terms, asked.ahead) {
        return Err(PredictTextsFault::OutOfRange);
    }
    if log_text.len() > LONGEST_FILE {
        return Err(PredictTextsFault::TooMuchInput);
    }
    let graph = read(alloc, graph_text)?;
    let node = probed_node(&graph, asked.node)?;
    let text = forecasts_counted::<Brand>(alloc, graph, log_text, asked, node, Blank::new(1))?;
    Ok(text)
}

/// Whether each number is in its range.
fn is_in_range(terms: Terms, ahead: u64) -> bool
    ensures { IsTrue result ↔ IsInRange terms ahead }
{
    are_report_terms(terms) && ahead <= MAX_TIME
}

/// The forecasts after the lines of the log, with a new counter of steps, which costs nothing.
fn forecasts_counted<L: Ledger>(
    alloc: Global,
    graph: Graph,
    log_text: &[u8],
    asked: &ForecastRequest<'_>,
    node: u32,
    blank: Blank,
) -> Result<Vec<u8>, TableFault>
    requires name { blank.name ≡ L.name }
    requires parts { blank.parts ≡ L.parts }
    requires some { 0 < blank.parts }
    requires terms { AreReportTerms asked.now.terms }
    requires probe { CanForecast graph node asked.now.ahead }
    ensures forecasts { IfOk result (λ text. HasForecasts graph (prediction_of asked.now) node (lines_of log_text.now) text.items) }
    ensures too_many { (count : ℕ) → (result ≡ Err (TableFault.TooMany count)) ↔
        ((MAX_HYPOTHESES < count) × HasHypotheses graph asked.now.terms count) }
{
    let mut work = Steps::<L>::new(blank);
    forecasts_text(alloc, graph, log_text, asked, node, &mut work)
}
