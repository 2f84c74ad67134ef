//! The log of some events.

ghost use Rattle.std.specs.Prelude.{◌≡◌, IfOk};
ghost use Rattle.tfpg_log.specs.LogOfLines.{log_of_events};
ghost use Rattle.tfpg_log.specs.EventLines.{AreNextEvents};

use std::alloc::Global;
use tfpg_base::NoMemory;
use tfpg_graph::Graph;
use tfpg_log::{Event, Log};

/// The log of these events, each of which may come next after those before it. It ignores no monitor.
pub(crate) fn log_of_events(alloc: Global, graph: &Graph, events: &[Event]) -> Result<Log, NoMemory>
    requires { AreNextEvents graph.now events.now }
    ensures { IfOk result (λ log. log ≡ log_of_events events.now) }
{
    let mut log = Log::new(alloc);
    for event in events {
        log.add(graph, *event)?;
    }
    Ok(log)
}
