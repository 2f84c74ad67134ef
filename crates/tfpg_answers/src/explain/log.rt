//! The log of a text.

ghost use Rattle.std.specs.Prelude.{◌≡◌, IfOk, OnOk};
ghost use Rattle.tfpg_base.specs.Lines.{lines_of};
ghost use Rattle.tfpg_log.specs.Log.{IsLogOf};
ghost use Rattle.tfpg_log.specs.LogOfLines.{log_after, log_of_lines};

use std::alloc::Global;
use tfpg_base::NoMemory;
use tfpg_graph::Graph;
use tfpg_log::{Log, is_too_long};

/// The log of the lines of the text. Lines that are too long and lines that are refused leave no trace in it.
pub(super) fn log_of_text(alloc: Global, graph: &Graph, text: &[u8]) -> Result<Log, NoMemory>
    ensures log { IfOk result (λ log. log ≡ log_of_lines graph.now (lines_of text.now)) }
    ensures of_graph { IfOk result (IsLogOf graph.now) }
{
    let mut log = Log::new(alloc);
    // What stands after the last line end may be empty, and is then no line. The log refuses it like any empty line.
    for line in text.split(|byte| *byte == b'\n') {
        offer_line(&mut log, graph, line)?;
    }
    Ok(log)
}

/// Offers a line to the log, unless it is too long.
fn offer_line(log: &mut Log, graph: &Graph, line: &[u8]) -> Result<(), NoMemory>
    requires { IsLogOf graph.now log.old }
    ensures log { OnOk result (log.new ≡ log_after graph.now log.old line.now) }
    ensures of_graph { IsLogOf graph.now log.new }
{
    if !is_too_long(line) {
        log.offer(graph, line)?;
    }
    Ok(())
}
