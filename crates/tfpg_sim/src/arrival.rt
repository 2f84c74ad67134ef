//! When the failure first arrives at a discrepancy, by what is active so far.

ghost use Rattle.std.specs.Prelude.{◌≡◌, ◌≤◌, ◌<◌, ◌+◌, ◌^◌, ℕ, length, not, false, IfOk, IsTrue, filter_map};
ghost use Rattle.tfpg_graph.specs.Graph.{is_kind_at, is_failure, incoming};
ghost use Rattle.tfpg_log.specs.Log.{Logbook};
ghost use Rattle.tfpg_sim.specs.inside.Arrivals.{IsDelayed, flight_over, AreNearTimes};
ghost use Rattle.tfpg_sim.specs.inside.ModeSpans.{AreSpans};
ghost use Rattle.tfpg_sim.specs.Simulation.{IsFirst, Arrives};

use crate::delayed::Delayed;
use crate::flight::{Flight, first_landing};
use std::alloc::Global;
use tfpg_base::{NoMemory, Trace};
use tfpg_graph::{Graph, Kind};

/// The first instant up to the limit at which the failure arrives at the discrepancy, by the spans of the modes up to
/// there. Goes through the edges into the node in each span.
pub(crate) fn first_arrival(
    alloc: Global,
    delayed: &Delayed<'_>,
    trace: &Trace,
    node: u32,
) -> Result<Option<u64>, NoMemory>
    requires node { node < length delayed.now.graph.now.nodes }
    requires discrepancy { is_kind_at is_failure delayed.now.graph.now node ≡ false }
    requires delayed { IsDelayed delayed.now }
    requires times { AreNearTimes trace.now }
    ensures { IfOk result (λ first. (log : Logbook) (limit : ℕ) →
        AreSpans log (limit + 1) 0 delayed.now.spans.now →
        IsFirst (Arrives delayed.now.graph.now log delayed.now.delays.now trace.now node) limit first) }
{
    let flights = flights_into(alloc, delayed.graph, delayed.delays, trace, node)?;
    match delayed.graph.kind(node) {
        Kind::Failure { .. } => Ok(None),
        Kind::Or { .. } => first_landing(alloc, delayed.spans, &flights, false),
        Kind::And { .. } => {
            if flights.len() < delayed.graph.incoming(node).len() {
                return Ok(None);
            }
            first_landing(alloc, delayed.spans, &flights, true)
        }
    }
}

/// The flights over the edges into the node whose sources are active.
fn flights_into(
    alloc: Global,
    graph: &Graph,
    delays: &[u64],
    trace: &Trace,
    node: u32,
) -> Result<Vec<Flight>, NoMemory>
    requires node { node < length graph.now.nodes }
    requires each { length delays.now ≡ length graph.now.edges }
    ensures { IfOk result (λ flights.
        flights.items ≡ filter_map (flight_over graph.now delays.now trace.now) (incoming graph.now node)) }
{
    let mut flights = Vec::new(alloc);
    let incoming = graph.incoming(node);
    for number in incoming {
        if let Some(flight) = flight_over(graph, delays, trace, *number) {
            flights.push(flight)?;
        }
    }
    Ok(flights)
}

/// The flight over the edge of this number, where its source is active.
fn flight_over(graph: &Graph, delays: &[u64], trace: &Trace, number: u32) -> Option<Flight>
    requires number { number < length graph.now.edges }
    requires each { length delays.now ≡ length graph.now.edges }
    ensures { result ≡ flight_over graph.now delays.now trace.now number }
{
    let edge = graph.edge(number);
    let start = trace.at(edge.source)?;
    Some(Flight {
        edge,
        start,
        delay: delays[number as usize],
    })
}
