//! The command `ask`: from the names of a graph file and a log file, and the terms, to the questions that would tell most.

ghost use Rattle.std.specs.Prelude.{IfErr, OnOk};
ghost use Rattle.tfpg_base.specs.Outside.{SourceState};
ghost use Rattle.tfpg_base.specs.Terms.{AreReportTerms};
ghost use Rattle.tfpg_panel.specs.Desk.{DeskState};
ghost use Rattle.tfpg_run.specs.World.{world};
ghost use Rattle.tfpg_run.specs.ask.Asking.{AskEnds};

use crate::end::End;
use crate::fetching::fetch_graph_and_text;
use std::alloc::Global;
use std::sync::ledger::Ledger;
use tfpg_answers::questions_text;
use tfpg_base::{Shelf, Sink, Steps, Terms};
use tfpg_streams::write_all;

/// Diagnoses the log of the one file on the graph of the other, and writes which questions would tell most after it.
pub(crate) fn ask_by_files<F: Shelf, K: Sink, L: Ledger>(
    alloc: Global,
    terms: Terms,
    graph_name: &str,
    log_name: &str,
    shelf: &mut F,
    out: &mut K,
    work: &mut Steps<L>,
) -> Result<(), End>
    requires { AreReportTerms terms }
    ensures done { (input : SourceState) (desk : DeskState) → OnOk result (AskEnds terms graph_name.now log_name.now
        (world (F.state shelf.old) input (K.state out.old) desk)
        (world (F.state shelf.new) input (K.state out.new) desk) End.Done) }
    ensures stopped { (input : SourceState) (desk : DeskState) → IfErr result (AskEnds terms graph_name.now log_name.now
        (world (F.state shelf.old) input (K.state out.old) desk)
        (world (F.state shelf.new) input (K.state out.new) desk)) }
{
    let (graph, log) = fetch_graph_and_text(alloc, shelf, graph_name, log_name)?;
    let text = questions_text(alloc, graph, &log, terms, work)?;
    write_all(out, &text)?;
    Ok(())
}
