//! What a simulation draws.

ghost use Rattle.std.specs.Prelude.{◌≡◌, ◌≤◌, ◌<◌, ◌+◌, ◌^◌, IfOk, OnOk, IfSome, fold, length};
ghost use Rattle.std.specs.List.{scan};
ghost use Rattle.tfpg_base.specs.declared.limits.TheConstants.{MAX_TIME};
ghost use Rattle.tfpg_graph.specs.Graph.{lag_of};
ghost use Rattle.tfpg_sim.specs.inside.Arrivals.{AreNearDelays, far};
ghost use Rattle.tfpg_sim.specs.Draws.{generator, drawn, after_draw, delay_count, delay_of, after_lag, lateness_of, lateness_drawn, latenesses_from, delays, latenesses};
ghost use Rattle.tfpg_sim.specs.inside.Entries.{IsLatenessInRange, AreLatenessesInRange};

use crate::limits::{DELAY_STREAM, OPEN_DELAYS};
use rand_core::utils::NextWord;
use rand_pcg::Lcg64Xsh32;
use std::alloc::Global;
use tfpg_base::NoMemory;
use tfpg_graph::{Edge, Graph, Kind, Lag};

/// How late the alarm of a monitored node comes after its activation, in milliseconds.
#[derive(Clone, Copy)]
pub(crate) struct Lateness {
    /// The least lag of the node. A sweep brings the alarm from then on.
    pub(crate) least: u64,
    /// What is drawn, from the least lag up to the greatest. The alarm comes then, where no sweep brings it earlier.
    pub(crate) drawn: u64,
}

/// The delay of each edge in milliseconds, and the lateness of each monitored node.
#[derive(Drop)]
pub(crate) struct Draws {
    pub(crate) delays: Vec<u64>,
    pub(crate) latenesses: Vec<Option<Lateness>>,
}

/// Draws the delays and the latenesses by the number. Takes time and memory linear in the graph.
pub(crate) fn draw_all(alloc: Global, graph: &Graph, number: u64) -> Result<Draws, NoMemory>
    ensures delays { IfOk result (λ draws. draws.delays.items ≡ delays graph.now number) }
    ensures latenesses { IfOk result (λ draws. draws.latenesses.items ≡ latenesses graph.now number) }
    ensures small_delays { IfOk result (λ draws. AreNearDelays draws.delays.items) }
    ensures each_delay { IfOk result (λ draws. length draws.delays.items ≡ length graph.now.edges) }
    ensures small_latenesses { IfOk result (λ draws. AreLatenessesInRange draws.latenesses.items) }
    ensures each_lateness { IfOk result (λ draws. length draws.latenesses.items ≡ length graph.now.nodes) }
{
    let mut state = Lcg64Xsh32::new(number, DELAY_STREAM);
    let delays = draw_delays(alloc, graph, &mut state)?;
    let latenesses = draw_latenesses(alloc, graph, &mut state)?;
    Ok(Draws { delays, latenesses })
}

/// Draws the delay of each edge.
fn draw_delays(alloc: Global, graph: &Graph, state: &mut Lcg64Xsh32) -> Result<Vec<u64>, NoMemory>
    ensures delays { IfOk result (λ delays. delays.items ≡ scan (λ before edge. after_draw before) (λ before edge. delay_of edge (drawn before)) state.old graph.now.edges) }
    ensures small { IfOk result (λ delays. AreNearDelays delays.items) }
    ensures count { IfOk result (λ delays. length delays.items ≡ length graph.now.edges) }
    ensures after { OnOk result (state.new ≡ fold (λ before edge. after_draw before) state.old graph.now.edges) }
{
    let mut delays = Vec::new(alloc);
    graph.is_always_valid();
    for number in 0..graph.edge_count() {
        delays.push(draw_delay(graph.edge(number), state))?;
    }
    Ok(delays)
}

/// Draws the delay of the edge.
fn draw_delay(edge: Edge, state: &mut Lcg64Xsh32) -> u64
    requires least { edge.tmin ≤ MAX_TIME }
    requires greatest { IfSome edge.tmax (λ tmax. (edge.tmin ≤ tmax) × (tmax ≤ MAX_TIME)) }
    ensures delay { result ≡ delay_of edge (drawn state.old) }
    ensures small { result ≤ far }
    ensures after { state.new ≡ after_draw state.old }
{
    let count = match edge.tmax {
        Some(tmax) => tmax - edge.tmin + 1,
        None => OPEN_DELAYS,
    };
    edge.tmin + draw_value(state) % count
}

/// Draws the lateness of each monitored node.
fn draw_latenesses(
    alloc: Global,
    graph: &Graph,
    state: &mut Lcg64Xsh32,
) -> Result<Vec<Option<Lateness>>, NoMemory>
    ensures latenesses { IfOk result (λ latenesses. latenesses.items ≡
        latenesses_from state.old graph.now.nodes) }
    ensures small { IfOk result (λ latenesses. AreLatenessesInRange latenesses.items) }
    ensures count { IfOk result (λ latenesses. length latenesses.items ≡ length graph.now.nodes) }
{
    let mut latenesses = Vec::new(alloc);
    for node in 0..graph.node_count() {
        latenesses.push(draw_lateness(graph.kind(node), state))?;
    }
    Ok(latenesses)
}

/// Draws the lateness of a node of this kind, where it is monitored.
fn draw_lateness(kind: Kind, state: &mut Lcg64Xsh32) -> Option<Lateness>
    requires { IfSome (lag_of kind) (λ lag. (lag.least ≤ lag.most) × (lag.most ≤ MAX_TIME)) }
    ensures small { IfSome result IsLatenessInRange }
    ensures lateness { result ≡ lateness_drawn state.old (lag_of kind) }
    ensures after { state.new ≡ after_lag state.old (lag_of kind) }
{
    let lag = kind.lag()?;
    Some(lateness_of(lag, draw_value(state)))
}

/// The lateness of an alarm by its lag and what is drawn for it: from the least lag up to the greatest.
fn lateness_of(lag: Lag, value: u64) -> Lateness
    requires in_order { lag.least ≤ lag.most }
    requires most { lag.most ≤ MAX_TIME }
    ensures lateness { result ≡ lateness_of lag value }
    ensures small { IsLatenessInRange result }
{
    Lateness {
        least: lag.least,
        drawn: lag.least + value % (lag.most - lag.least + 1),
    }
}

/// Takes a draw: two words, the high half first.
fn draw_value(state: &mut Lcg64Xsh32) -> u64
    ensures value { result ≡ drawn state.old }
    ensures after { state.new ≡ after_draw state.old }
{
    let high = u64::from(state.next_word());
    let low = u64::from(state.next_word());
    high * (1 << 32) + low
}
