//! The questions after a log, where graph and log are texts.

ghost use Rattle.std.specs.Prelude.{◌≡◌, ◌⊎◌, ◌≢◌, ◌↔◌, ◌<◌, ℕ, Err, IfErr, IfOk, IsOkUnless, OnOk};
ghost use Rattle.tfpg_base.specs.Terms.{AreReportTerms};
ghost use Rattle.tfpg_hyp.specs.Hypotheses.{HasHypotheses};
ghost use Rattle.tfpg_hyp.specs.declared.limits.TheConstants.{MAX_HYPOTHESES};
ghost use Rattle.tfpg_answers.specs.Questions.{HasQuestions};
ghost use Rattle.tfpg_answers.specs.declared.texts.fault.AskTextsFault.{AskTextsFault as WhyNoQuestions};
ghost use Rattle.tfpg_answers.specs.texts.AskedTexts.{CanAskTexts, HasQuestionsOfTexts, IsAskTextsFault};

use super::fault::AskTextsFault;
use crate::ask::questions_text;
use std::alloc::Global;
use std::marker::Brand;
use std::sync::ledger::{Blank, Ledger};
use tfpg_base::{LONGEST_FILE, Steps, Terms};
use tfpg_diagnose::are_report_terms;
use tfpg_graph::laws::a_text_has_at_most_one_first_fault;
use tfpg_graph::{Graph, read};
use tfpg_hyp::TableFault;
use tfpg_hyp::laws::the_table_is_one;

/// Which questions would tell most after the lines of the log, for the graph that the text spells, on these terms: what the program writes
/// for `ask`.
pub fn ask_texts(
    alloc: Global,
    graph_text: &[u8],
    log_text: &[u8],
    terms: Terms,
) -> Result<Vec<u8>, AskTextsFault>
    ensures questions { IfOk result (λ text. HasQuestionsOfTexts graph_text.now terms log_text.now text.items) }
    ensures fault { IfErr result (IsAskTextsFault graph_text.now terms log_text.now) }
    // Where the texts and the terms are right, there are questions, or memory ran out.
    ensures completes { CanAskTexts graph_text.now terms log_text.now → IsOkUnless result AskTextsFault.NoMemory }
    // Where a fault stands in the way, it is the fault, or memory ran out.
    ensures refuses { (fault : WhyNoQuestions) → fault ≢ AskTextsFault.NoMemory → IsAskTextsFault graph_text.now terms log_text.now fault →
        (result ≡ Err fault) ⊎ (result ≡ Err AskTextsFault.NoMemory) }
{
    a_text_has_at_most_one_first_fault();
    the_table_is_one();
    questions_of_texts(alloc, graph_text, log_text, terms)
}

/// The same, with what its result says alone.
fn questions_of_texts(
    alloc: Global,
    graph_text: &[u8],
    log_text: &[u8],
    terms: Terms,
) -> Result<Vec<u8>, AskTextsFault>
    ensures questions { IfOk result (λ text. HasQuestionsOfTexts graph_text.now terms log_text.now text.items) }
    ensures can { OnOk result (CanAskTexts graph_text.now terms log_text.now) }
    ensures fault { IfErr result (IsAskTextsFault graph_text.now terms log_text.now) }
{
    if !are_report_terms(terms) {
        return Err(AskTextsFault::OutOfRange);
    }
    if log_text.len() > LONGEST_FILE {
        return Err(AskTextsFault::TooMuchInput);
    }
    let graph = read(alloc, graph_text)?;
    let text = questions_counted::<Brand>(alloc, graph, log_text, terms, Blank::new(1))?;
    Ok(text)
}

/// The questions after the lines of the log, with a new counter of steps, which costs nothing.
fn questions_counted<L: Ledger>(
    alloc: Global,
    graph: Graph,
    log_text: &[u8],
    terms: Terms,
    blank: Blank,
) -> Result<Vec<u8>, TableFault>
    requires name { blank.name ≡ L.name }
    requires parts { blank.parts ≡ L.parts }
    requires some { 0 < blank.parts }
    requires terms { AreReportTerms terms }
    ensures questions { IfOk result (λ text. HasQuestions terms graph log_text.now text.items) }
    ensures too_many { (count : ℕ) → (result ≡ Err (TableFault.TooMany count)) ↔
        ((MAX_HYPOTHESES < count) × HasHypotheses graph terms count) }
{
    let mut work = Steps::<L>::new(blank);
    questions_text(alloc, graph, log_text, terms, &mut work)
}
