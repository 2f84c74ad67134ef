//! Whether a map explains the log of a text, as a text.

ghost use Rattle.std.specs.Prelude.{◌<◌, All, IfOk, IsTrue, length};
ghost use Rattle.tfpg_base.specs.Lines.{lines_of};
ghost use Rattle.tfpg_graph.specs.Graph.{is_monitored};
ghost use Rattle.tfpg_log.specs.LogOfLines.{log_of_lines};
ghost use Rattle.tfpg_answers.specs.Verdicts.{HasVerdict};

mod log;
mod verdicts;

use log::log_of_text;
use std::alloc::Global;
use tfpg_base::NoMemory;
use tfpg_graph::Graph;
use tfpg_map::Map;
use tfpg_trace::explains;
use verdicts::verdict_line;

/// Judges the map by the graph and the lines of the log, and returns the text of the verdict. The log ignores the monitors that the map
/// ignores.
pub fn verdict_on_map(
    alloc: Global,
    graph: &Graph,
    log_text: &[u8],
    map: &Map,
) -> Result<Vec<u8>, NoMemory>
    requires nodes { All (λ activation. activation.node < length graph.now.nodes) map.now.trace }
    requires monitors { All (λ node. IsTrue (is_monitored graph.now node)) map.now.hypothesis.doubts }
    ensures { IfOk result (λ text. HasVerdict graph.now (log_of_lines graph.now (lines_of log_text.now)) map.now text.items) }
{
    let mut log = log_of_text(alloc, graph, log_text)?;
    log.ignore(map.doubts());
    let verdict = explains(graph, &log, map.set(), &map.trace);
    verdict_line(alloc, graph, verdict)
}
