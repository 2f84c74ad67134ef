//! The trace of a script.
//!
//! The nodes become active one after the other, as the shortest paths of Dijkstra's algorithm: of all discrepancies that are
//! not active yet, the one with the least first arrival is next. What becomes active at that time or later changes nothing
//! before it.

ghost use Rattle.std.specs.Prelude.{◌≡◌, ◌≤◌, ◌+◌, ◌^◌, ℕ, length, All, IfOk, OnOk};
ghost use Rattle.tfpg_base.specs.declared.limits.TheConstants.{MAX_TIME};
ghost use Rattle.tfpg_base.specs.Trace.{time_of};
ghost use Rattle.tfpg_graph.specs.Graph.{Tfpg};
ghost use Rattle.tfpg_sim.specs.inside.Arrivals.{AreNearDelays};
ghost use Rattle.tfpg_sim.specs.Script.{time_of_entry};
ghost use Rattle.tfpg_sim.specs.inside.Entries.{IsScript};
ghost use Rattle.tfpg_sim.specs.Simulation.{IsSimulated, start_of};
ghost use Rattle.tfpg_sim.specs.inside.Settling.{IsFailureStart, with_start};

use crate::candidates::{candidates_after, earliest, first_candidates};
use crate::delayed::Delayed;
use crate::entry::{Entry, time_so_far};
use crate::mode_spans::spans_of;
use std::alloc::Global;
use tfpg_base::{NoMemory, Trace};
use tfpg_graph::Graph;

/// The trace of the script by these delays. Goes through no instants: the cost is that of the edges into each node times
/// the edges into it and the changes of mode.
pub(crate) fn trace_of(
    alloc: Global,
    graph: &Graph,
    entries: &[Entry],
    delays: &[u64],
) -> Result<Trace, NoMemory>
    requires script { IsScript graph.now entries.now }
    requires each { length delays.now ≡ length graph.now.edges }
    requires delays { AreNearDelays delays.now }
    ensures simulated { IfOk result (IsSimulated graph.now entries.now delays.now) }
    ensures times { IfOk result (λ trace. All (λ activation. activation.time ≤ MAX_TIME) trace) }
{
    let stop = time_so_far(entries);
    let spans = spans_of(alloc, entries, stop)?;
    let delayed = Delayed {
        graph,
        spans: &spans,
        delays,
    };
    let mut trace = started(alloc, entries)?;
    graph.is_always_valid();
    let mut candidates = first_candidates(alloc, &delayed, &trace)?;
    while let Some((node, time)) = earliest(&candidates) {
        trace.set(node, time)?;
        candidates = candidates_after(alloc, &delayed, &trace, node, &candidates)?;
    }
    trace.is_always_rising();
    Ok(trace)
}

/// The trace of the failure modes that the script starts.
fn started(alloc: Global, entries: &[Entry]) -> Result<Trace, NoMemory>
    ensures times { IfOk result (λ trace. (graph : Tfpg) → IsScript graph entries.now →
        (node : ℕ) → time_of trace node ≡ start_of entries.now node) }
    ensures own { IfOk result (λ trace. (graph : Tfpg) (stop : ℕ) → IsScript graph entries.now →
        All (λ entry. time_of_entry entry ≤ stop) entries.now → All (IsFailureStart graph stop) trace) }
{
    let mut trace = Trace::new(alloc);
    for entry in entries {
        set_start(&mut trace, *entry)?;
    }
    Ok(trace)
}

/// Sets the time of the failure mode that the line starts.
fn set_start(trace: &mut Trace, entry: Entry) -> Result<(), NoMemory>
    ensures { OnOk result (trace.new ≡ with_start entry trace.old) }
{
    match entry {
        Entry::Start { time, node } => trace.set(node, time),
        Entry::Mode { .. } | Entry::Sweep { .. } | Entry::Tick { .. } | Entry::Stop { .. } => Ok(
            (),
        ),
    }
}
