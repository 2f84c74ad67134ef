//! Opening a diagnosis of the graph that a text spells.

ghost use Rattle.std.specs.Prelude.{◌↔◌, IfErr, IfOk, IsTrue};
ghost use Rattle.tfpg_base.specs.Terms.{AreReportTerms};
ghost use Rattle.tfpg_diagnose.specs.inside.texts.Opened.{IsNewEngineOf};
ghost use Rattle.tfpg_diagnose.specs.texts.Opening.{IsOpenFault};

use super::fault::OpenFault;
use std::alloc::Global;
use tfpg_base::{MAX_BUDGET, MAX_DOUBT, MAX_K, Terms};
use tfpg_engine::Engine;
use tfpg_graph::read;

/// A new engine of the graph that the text spells, on these terms.
pub(super) fn open_engine(
    alloc: Global,
    graph_text: &[u8],
    terms: Terms,
) -> Result<Engine, OpenFault>
    ensures opened { IfOk result (IsNewEngineOf graph_text.now terms) }
    ensures fault { IfErr result (IsOpenFault graph_text.now terms) }
{
    if !are_report_terms(terms) {
        return Err(OpenFault::OutOfRange);
    }
    let graph = read(alloc, graph_text)?;
    Ok(Engine::new(alloc, graph, terms.k, terms.doubt, terms.budget)?)
}

/// Whether each number of the terms is in its range.
pub fn are_report_terms(terms: Terms) -> bool
    ensures { IsTrue result ↔ AreReportTerms terms }
{
    u64::from(terms.k) <= MAX_K
        && u64::from(terms.doubt) <= MAX_DOUBT
        && 1 <= terms.budget
        && terms.budget <= MAX_BUDGET
}
