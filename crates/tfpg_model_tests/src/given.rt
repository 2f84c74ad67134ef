//! A graph of a text, and a log of some lines: what several tests begin with. No test owns them itself: each way out of a function that
//! owns a graph is dear to prove.

ghost use Rattle.std.specs.Prelude.{◌≡◌, IfOk};
ghost use Rattle.tfpg_log.specs.Log.{IsLogOf};

use std::alloc::Global;
use std::test::Fail;
use tfpg_graph::{Graph, read};
use tfpg_log::Log;

/// Makes the rest of a test on the graph of the text.
pub(crate) fn on_graph<F: FnOnce(&Graph) -> Result<(), Fail>>(
    alloc: Global,
    text: &[u8],
    test: F,
) -> Result<(), Fail>
    requires { (graph : _) → F.pre test graph }
{
    let graph = read(alloc, text)?;
    test(&graph)
}

/// Makes the rest of a test on the graph of the text and the log of the lines.
pub(crate) fn on_log<F: FnOnce(&Graph, &Log) -> Result<(), Fail>>(
    alloc: Global,
    text: &[u8],
    lines: &[&[u8]],
    test: F,
) -> Result<(), Fail>
    requires { (graph : _) (log : _) → IsLogOf graph.now log.now → F.pre test graph log }
{
    let graph = read(alloc, text)?;
    on_log_of(alloc, &graph, lines, test)
}

/// Makes the rest of a test on the log of the lines.
fn on_log_of<F: FnOnce(&Graph, &Log) -> Result<(), Fail>>(
    alloc: Global,
    graph: &Graph,
    lines: &[&[u8]],
    test: F,
) -> Result<(), Fail>
    requires { (graph : _) (log : _) → IsLogOf graph.now log.now → F.pre test graph log }
{
    let log = log_of(alloc, graph, lines)?;
    test(graph, &log)
}

/// The log of the lines.
fn log_of(alloc: Global, graph: &Graph, lines: &[&[u8]]) -> Result<Log, Fail>
    ensures { IfOk result (IsLogOf graph.now) }
{
    let mut log = Log::new(alloc);
    for line in lines {
        log.offer(graph, *line)?;
    }
    Ok(log)
}

/// Compares what is found with what is wanted, for each name.
pub(crate) fn compare(rows: &[(&'static str, Option<u64>, Option<u64>)]) -> Result<(), Fail> {
    for (row, found, wanted) in rows {
        if *found != *wanted {
            return Err(Fail::new(*row));
        }
    }
    Ok(())
}
