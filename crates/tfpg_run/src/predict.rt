//! The command `predict`: from the names of a graph file, a log file and a node to when the node becomes active at the earliest.

ghost use Rattle.std.specs.Prelude.{◌≤◌, IfErr, OnOk};
ghost use Rattle.tfpg_base.specs.Outside.{SourceState};
ghost use Rattle.tfpg_base.specs.Terms.{AreReportTerms};
ghost use Rattle.tfpg_base.specs.declared.limits.TheConstants.{MAX_TIME};
ghost use Rattle.tfpg_panel.specs.Desk.{DeskState};
ghost use Rattle.tfpg_answers.specs.Forecasts.{prediction_of};
ghost use Rattle.tfpg_run.specs.World.{world};
ghost use Rattle.tfpg_run.specs.predict.Predicting.{PredictEnds};

use crate::end::End;
use crate::fetching::fetch_graph_and_text;
use std::alloc::Global;
use std::sync::ledger::Ledger;
use tfpg_answers::{ForecastRequest, forecasts_text, probed_node};
use tfpg_base::{Shelf, Sink, Steps};
use tfpg_streams::write_all;

/// Fetches the graph and the log of the files of these names, diagnoses the log, and writes the forecasts that are asked for.
pub(crate) fn predict_by_files<F: Shelf, K: Sink, L: Ledger>(
    alloc: Global,
    asked: &ForecastRequest<'_>,
    graph_name: &str,
    log_name: &str,
    shelf: &mut F,
    out: &mut K,
    work: &mut Steps<L>,
) -> Result<(), End>
    requires terms { AreReportTerms asked.now.terms }
    requires not_far { asked.now.ahead ≤ MAX_TIME }
    ensures done { (input : SourceState) (desk : DeskState) → OnOk result (PredictEnds
        (prediction_of asked.now) graph_name.now log_name.now
        (world (F.state shelf.old) input (K.state out.old) desk)
        (world (F.state shelf.new) input (K.state out.new) desk) End.Done) }
    ensures stopped { (input : SourceState) (desk : DeskState) → IfErr result (PredictEnds
        (prediction_of asked.now) graph_name.now log_name.now
        (world (F.state shelf.old) input (K.state out.old) desk)
        (world (F.state shelf.new) input (K.state out.new) desk)) }
{
    let (graph, log_text) = fetch_graph_and_text(alloc, shelf, graph_name, log_name)?;
    let node = probed_node(&graph, asked.node)?;
    let text = forecasts_text(alloc, graph, &log_text, asked, node, work)?;
    write_all(out, &text)?;
    Ok(())
}
