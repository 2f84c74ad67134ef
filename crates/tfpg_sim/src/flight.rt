//! Propagations under way over the edges into one node, and when they land.

ghost use Rattle.std.specs.Prelude.{◌≡◌, ◌≤◌, ◌+◌, ◌^◌, ◌==◌, ◌↔◌, ℕ, true, false, length, vec_len, IfOk, Some, None, slice_get, slice_index_or};
ghost use Rattle.tfpg_log.specs.Log.{Logbook};
ghost use Rattle.tfpg_sim.specs.inside.Arrivals.{AreNearSpans, AreNearFlights, far};
ghost use Rattle.tfpg_sim.specs.inside.Flights.{IsReached, ReachedBy, LandsBy, IsFirstIn, pending_in};
ghost use Rattle.tfpg_sim.specs.inside.ModeSpans.{AreSpans};
ghost use Rattle.tfpg_sim.specs.Simulation.{IsFirst};

use std::alloc::Global;
use tfpg_base::{NoMemory, earlier};
use tfpg_graph::Edge;
use tfpg_log::Span;

/// A propagation over an edge whose source became active at `start`: it takes `delay` milliseconds, in which the edge must
/// be active.
#[derive(Clone, Copy)]
pub(crate) struct Flight {
    pub(crate) edge: Edge,
    pub(crate) start: u64,
    pub(crate) delay: u64,
}

/// The first instant up to the limit at which all the flights have landed, or some of them, by the spans of the modes up to
/// there. A flight that is cut starts anew. Goes through the flights in each span.
pub(crate) fn first_landing(
    alloc: Global,
    spans: &[Span],
    flights: &[Flight],
    needs_all: bool,
) -> Result<Option<u64>, NoMemory>
    requires spans { AreNearSpans spans.now }
    requires flights { AreNearFlights flights.now }
    ensures { IfOk result (λ first. (log : Logbook) (limit : ℕ) → AreSpans log (limit + 1) 0 spans.now →
        IsFirst (LandsBy needs_all log flights.now) limit first) }
{
    let mut pendings = nothing_pending(alloc, flights.len())?;
    Ok(landing_in(spans, flights, needs_all, &mut pendings))
}

/// Nothing pending of so many flights.
fn nothing_pending(alloc: Global, count: usize) -> Result<Vec<Option<u64>>, NoMemory>
    ensures none { IfOk result (λ pendings. (index : ℕ) → slice_index_or pendings.items index None ≡ None) }
    ensures len { IfOk result (λ pendings. vec_len pendings ≡ count) }
{
    Ok(vec![in alloc; None; count]?)
}

/// The first landing, where nothing is pending before the first span.
fn landing_in(
    spans: &[Span],
    flights: &[Flight],
    needs_all: bool,
    pendings: &mut [Option<u64>],
) -> Option<u64>
    requires room { length pendings.old ≡ length flights.now }
    requires none { (index : ℕ) → slice_index_or pendings.old index None ≡ None }
    requires spans { AreNearSpans spans.now }
    requires flights { AreNearFlights flights.now }
    ensures { (log : Logbook) (limit : ℕ) → AreSpans log (limit + 1) 0 spans.now →
        IsFirst (LandsBy needs_all log flights.now) limit result }
{
    for span in spans {
        begin_span(*span, flights, pendings);
        let first = first_in(*span, reached(pendings, needs_all));
        if first.is_some() {
            return first;
        }
    }
    None
}

/// What is pending of each flight once the span has begun.
fn begin_span(span: Span, flights: &[Flight], pendings: &mut [Option<u64>])
    requires room { length pendings.old ≡ length flights.now }
    requires span { span.lo ≤ far }
    requires flights { AreNearFlights flights.now }
    ensures { (index : ℕ) (flight : Flight) → slice_get flights.now index ≡ Some flight →
        slice_index_or pendings.new index None ≡
        pending_in span flight (slice_index_or pendings.old index None) }
{
    for (index, flight) in flights.iter().enumerate() {
        pendings[index] = pending_in(span, *flight, pendings[index]);
    }
}

/// When the flight lands if its edge stays active, by what was pending before the span: a flight that goes on keeps its
/// time, and one that was cut starts anew.
fn pending_in(span: Span, flight: Flight, pending: Option<u64>) -> Option<u64>
    requires span { span.lo ≤ far }
    requires start { flight.start ≤ far }
    requires delay { flight.delay ≤ far }
    ensures { result ≡ pending_in span flight pending }
{
    if !flight.edge.is_active_in(span.mode) {
        return None;
    }
    match pending {
        Some(arrival) => Some(arrival),
        None => Some(span.lo.max(flight.start) + flight.delay),
    }
}

/// The first instant of the span from the arrival on.
fn first_in(span: Span, arrival: Option<u64>) -> Option<u64>
    ensures { IsFirstIn (IsReached arrival) span.lo span.hi result }
{
    span.first_from(arrival?)
}

/// From when on all of them are reached, or some of them.
fn reached(pendings: &[Option<u64>], needs_all: bool) -> Option<u64>
    ensures { (instant : ℕ) → IsReached result instant ↔ ReachedBy needs_all pendings.now instant }
{
    if needs_all {
        latest(pendings)
    } else {
        soonest(pendings)
    }
}

/// From when on all of them are reached.
fn latest(pendings: &[Option<u64>]) -> Option<u64>
    ensures { (instant : ℕ) → IsReached result instant ↔ ReachedBy true pendings.now instant }
{
    let mut last = 0;
    for pending in pendings {
        last = (*pending)?.max(last);
    }
    Some(last)
}

/// From when on some of them is reached.
fn soonest(pendings: &[Option<u64>]) -> Option<u64>
    ensures { (instant : ℕ) → IsReached result instant ↔ ReachedBy false pendings.now instant }
{
    let mut first = None;
    for pending in pendings {
        first = earlier(first, *pending);
    }
    first
}
