//! The command `explain`: from the names of a graph file and a log file to the verdict on the map of the input.

ghost use Rattle.std.specs.Prelude.{◌<◌, All, IfErr, IsTrue, OnOk, Ok, Err, length};
ghost use Rattle.tfpg_base.specs.Lines.{lines_of};
ghost use Rattle.tfpg_graph.specs.Graph.{is_monitored};
ghost use Rattle.tfpg_log.specs.LogOfLines.{log_of_lines};
ghost use Rattle.tfpg_panel.specs.Desk.{DeskState};
ghost use Rattle.tfpg_streams.specs.Outputs.{TextEnds};
ghost use Rattle.tfpg_answers.specs.Verdicts.{HasVerdict};
ghost use Rattle.tfpg_run.specs.World.{world};
ghost use Rattle.tfpg_run.specs.explain.Explaining.{ExplainEnds};

use crate::end::End;
use crate::fetching::fetch_graph_and_text;
use std::alloc::Global;
use tfpg_answers::verdict_on_map;
use tfpg_base::{Shelf, Sink, Source};
use tfpg_graph::Graph;
use tfpg_map::{Map, read_map};
use tfpg_streams::{OutputFault, write_all};

/// Judges the map of the input by the graph and the log of the files of these names.
pub(crate) fn explain_by_files<F: Shelf, S: Source, K: Sink>(
    alloc: Global,
    graph_name: &str,
    log_name: &str,
    shelf: &mut F,
    input: &mut S,
    out: &mut K,
) -> Result<(), End>
    ensures done { (desk : DeskState) → OnOk result (ExplainEnds graph_name.now log_name.now
        (world (F.state shelf.old) (S.state input.old) (K.state out.old) desk)
        (world (F.state shelf.new) (S.state input.new) (K.state out.new) desk) End.Done) }
    ensures stopped { (desk : DeskState) → IfErr result (ExplainEnds graph_name.now log_name.now
        (world (F.state shelf.old) (S.state input.old) (K.state out.old) desk)
        (world (F.state shelf.new) (S.state input.new) (K.state out.new) desk)) }
{
    let (graph, log_text) = fetch_graph_and_text(alloc, shelf, graph_name, log_name)?;
    let map = read_map(alloc, &graph, input)?;
    Ok(write_verdict(alloc, &graph, &log_text, &map, out)?)
}

/// Judges the map by the graph and the lines of the log, and writes the verdict.
fn write_verdict<K: Sink>(
    alloc: Global,
    graph: &Graph,
    log_text: &[u8],
    map: &Map,
    out: &mut K,
) -> Result<(), OutputFault>
    requires nodes { All (λ activation. activation.node < length graph.now.nodes) map.now.trace }
    requires monitors { All (λ node. IsTrue (is_monitored graph.now node)) map.now.hypothesis.doubts }
    ensures done { OnOk result (TextEnds (HasVerdict graph.now (log_of_lines graph.now (lines_of log_text.now)) map.now)
        (K.state out.old) (K.state out.new) (Ok tt)) }
    ensures stopped { IfErr result (λ fault. TextEnds (HasVerdict graph.now (log_of_lines graph.now (lines_of log_text.now)) map.now)
        (K.state out.old) (K.state out.new) (Err fault)) }
{
    let text = verdict_on_map(alloc, graph, log_text, map)?;
    write_all(out, &text)?;
    Ok(())
}
