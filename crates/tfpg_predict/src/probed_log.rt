//! A log with a probe of a node.

ghost use Rattle.std.specs.Prelude.{◌≡◌, ◌≤◌, [], ◌∷◌, ◌++◌, length, IfOk};
ghost use Rattle.tfpg_log.specs.declared.event.Event.TheVariants as kinds;
ghost use Rattle.tfpg_log.specs.Log.{IsLogOf};
ghost use Rattle.tfpg_predict.specs.Kept.{kept_events};
ghost use Rattle.tfpg_predict.specs.LeastTime.{lookahead_of};
ghost use Rattle.tfpg_predict.specs.Probed.{IsProbed, IsProbeable, ExplainsAsProbed};

use crate::events_log::log_of_events;
use crate::kept::kept_events;
use crate::probe_name::probe_name;
use std::alloc::Global;
use tfpg_base::NoMemory;
use tfpg_graph::{Graph, Lag};
use tfpg_log::{Event, Log};

/// A graph with a probe of a node, and a log of it whose last event is an alarm of the probe.
#[derive(Drop)]
pub struct ProbedLog {
    pub graph: Graph,
    pub log: Log,
    /// The number of the probe: that of the graph's last node.
    pub probe: u32,
}

/// The log with a probe of the node: it says that the node became active by the bound, in a log that goes on to a time. The
/// bound and the time are in milliseconds.
///
/// The probed log keeps all changes of mode, of each monitored node the first and the last alarm and the last silence, and
/// what the log ignores. It ends with an alarm of the probe at that time, whose lag leaves the probe the instants up to the
/// bound. Takes time linear in the graph and in the product of its nodes with the events of the log.
pub fn probed(
    alloc: Global,
    graph: &Graph,
    log: &Log,
    node: u32,
    to: u64,
    bound: u64,
) -> Result<ProbedLog, NoMemory>
    requires probeable { IsProbeable (lookahead_of graph.now log.now node to) }
    requires bound { bound ≤ to }
    ensures probed { IfOk result (λ probed. IsProbed (lookahead_of graph.now log.now node to) bound
        probed.graph probed.log) }
    ensures probe { IfOk result (λ probed. probed.probe ≡ length graph.now.nodes) }
    ensures of { IfOk result (λ probed. IsLogOf probed.graph probed.log) }
    ensures explains { IfOk result (λ probed. ExplainsAsProbed (lookahead_of graph.now log.now node to)
        bound probed.graph probed.log) }
{
    graph.is_always_valid();
    log.is_always_ordered();
    log.is_always_within_limits();
    let name = probe_name(alloc, graph)?;
    let lag = Lag {
        least: to - bound,
        most: to,
    };
    let widened = graph.with_probe(alloc, &name, node, lag)?;
    let events = probed_events(alloc, graph, log, to)?;
    let mut later = log_of_events(alloc, &widened, &events)?;
    later.ignore(log.ignored());
    Ok(ProbedLog {
        graph: widened,
        log: later,
        probe: graph.node_count(),
    })
}

/// The kept events, and after them the alarm of the probe.
fn probed_events(alloc: Global, graph: &Graph, log: &Log, to: u64) -> Result<Vec<Event>, NoMemory>
    ensures { IfOk result (λ events. events.items
        ≡ kept_events graph.now log.now ++ kinds.Alarm to (length graph.now.nodes) ∷ []) }
{
    let mut events = kept_events(alloc, graph, log)?;
    events.push(Event::Alarm {
        time: to,
        node: graph.node_count(),
    })?;
    Ok(events)
}
