//! Which questions would tell most after the lines of a log, as a text.

ghost use Rattle.std.specs.Prelude.{◌≡◌, ◌↔◌, ◌<◌, ℕ, IfOk, Err};
ghost use Rattle.tfpg_base.specs.Terms.{AreReportTerms};
ghost use Rattle.tfpg_hyp.specs.Hypotheses.{HasHypotheses};
ghost use Rattle.tfpg_hyp.specs.declared.limits.TheConstants.{MAX_HYPOTHESES};
ghost use Rattle.tfpg_answers.specs.Questions.{HasQuestions};
ghost use Rattle.tfpg_answers.specs.inside.Asked.{CanBeAskedOf, IsNewDiagnosis, SaysQuestionsOf};

mod among;
mod answer;

use among::numbers_left;
use answer::{append_answer, append_first_line};
use std::alloc::Global;
use std::sync::ledger::Ledger;
use tfpg_base::{NoMemory, Steps, Terms};
use tfpg_diagnose::Diagnosis;
use tfpg_graph::Graph;
use tfpg_hyp::TableFault;
use tfpg_hyp::laws::the_table_is_one;

/// Diagnoses the lines of the log on the graph, and returns the text of the questions that would tell most after them.
pub fn questions_text<L: Ledger>(
    alloc: Global,
    graph: Graph,
    log: &[u8],
    terms: Terms,
    work: &mut Steps<L>,
) -> Result<Vec<u8>, TableFault>
    requires { AreReportTerms terms }
    ensures questions { IfOk result (λ text. HasQuestions terms graph log.now text.items) }
    ensures too_many { (count : ℕ) → (result ≡ Err (TableFault.TooMany count)) ↔
        ((MAX_HYPOTHESES < count) × HasHypotheses graph terms count) }
{
    let mut diagnosis = Diagnosis::new(alloc, graph, terms)?;
    Ok(questions_after(alloc, &mut diagnosis, log, work)?)
}

/// Diagnoses the lines of the log, and returns the text of the questions after them.
fn questions_after<L: Ledger>(
    alloc: Global,
    diagnosis: &mut Diagnosis,
    log: &[u8],
    work: &mut Steps<L>,
) -> Result<Vec<u8>, NoMemory>
    requires { IsNewDiagnosis diagnosis.old }
    ensures { IfOk result (λ text. HasQuestions diagnosis.old.engine.terms diagnosis.old.engine.graph log.now text.items) }
{
    the_table_is_one();
    diagnosis.take_text(alloc, log, work)?;
    let _table = diagnosis.engine.table();
    text_after(alloc, diagnosis, work)
}

/// The text of the questions after a diagnosis.
fn text_after<L: Ledger>(
    alloc: Global,
    diagnosis: &Diagnosis,
    work: &mut Steps<L>,
) -> Result<Vec<u8>, NoMemory>
    requires { CanBeAskedOf diagnosis.now }
    ensures { IfOk result (λ text. SaysQuestionsOf diagnosis.now text.items) }
{
    let engine = &diagnosis.engine;
    let among = numbers_left(alloc, &diagnosis.last)?;
    let mut text = Vec::new(alloc);
    append_first_line(engine.log(), &diagnosis.last, &mut text)?;
    append_answer(alloc, engine, &among, &mut text, work)?;
    Ok(text)
}
