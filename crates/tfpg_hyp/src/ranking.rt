//! By what ranked hypotheses are ordered: their cost, then their robustness, then their number.

ghost use Rattle.std.specs.Prelude.{◌≡◌, ◌↔◌, ◌<◌, ◌≤◌, length, IsTrue};
ghost use Rattle.tfpg_graph.specs.Graph.{failures, AreFailures};
ghost use Rattle.tfpg_graph.specs.declared.limits.TheConstants.{MAX_RARITY};
ghost use Rattle.tfpg_hyp.specs.Ranking.{rarity_at, cost_of, is_believed, robustness_of, IsRankedBefore};

use crate::limits::DOUBT_COST;
use crate::place::{Fraction, Place};
use tfpg_base::{Doubts, Set};
use tfpg_graph::{Graph, Kind, NodeSet};
use tfpg_log::Log;

/// The cost of a hypothesis: the sum of the rarities of its failure modes, which is at most 64,000,000, and
/// [`DOUBT_COST`](crate::DOUBT_COST) for each monitor that it doubts. Goes once over the failure modes of the graph.
pub fn cost(graph: &Graph, set: Set, doubts: Doubts) -> u64
    requires { AreFailures graph.now set }
    ensures { result ≡ cost_of graph.now (record { set = set; doubts = doubts }) }
{
    let mut cost = 0;
    for position in 0..graph.failure_count() {
        if set.has(position) {
            cost += rarity(graph, position);
        }
    }
    cost + DOUBT_COST * u64::from(doubts.len())
}

/// The robustness of a hypothesis with this reach and these doubts: of the monitored nodes in the reach outside the doubts, the
/// share that has an alarm in the log; 1/1 where there is no such node. Goes once over the nodes of the graph.
pub fn robust(graph: &Graph, log: &Log, reach: &NodeSet, doubts: Doubts) -> Fraction
    ensures fraction { result ≡ robustness_of graph.now log.now reach.now doubts }
    ensures whole { 1 ≤ result.monitored }
{
    let mut alarmed = 0;
    let mut monitored = 0;
    for node in 0..graph.node_count() {
        if reach.has(node) && is_believed(graph, doubts, node) {
            monitored += 1;
            if log.alarm_of(node).is_some() {
                alarmed += 1;
            }
        }
    }
    if monitored == 0 {
        return Fraction {
            alarmed: 1,
            monitored: 1,
        };
    }
    Fraction { alarmed, monitored }
}

/// Whether the one key comes before the other: where it costs less, or costs the same and is more robust, or is as
/// robust too and has the lesser number. Robustness is compared as the fraction that it is.
pub fn before(a: &Place, b: &Place) -> bool
    requires first { 1 ≤ a.now.robust.monitored }
    requires second { 1 ≤ b.now.robust.monitored }
    ensures { IsTrue result ↔ IsRankedBefore a.now b.now }
{
    if a.cost != b.cost {
        return a.cost < b.cost;
    }
    let of_a = u64::from(a.robust.alarmed) * u64::from(b.robust.monitored);
    let of_b = u64::from(b.robust.alarmed) * u64::from(a.robust.monitored);
    if of_a != of_b {
        return of_b < of_a;
    }
    a.number < b.number
}

/// The rarity of the failure mode at a position.
fn rarity(graph: &Graph, position: u32) -> u64
    requires { position < length (failures graph.now) }
    ensures worth { result ≡ rarity_at graph.now position }
    ensures small { result ≤ MAX_RARITY }
{
    // The graph is valid, and so the node is one of its nodes and its rarity is within the limit.
    graph.is_always_valid();
    match graph.kind(graph.failure_node(position)) {
        Kind::Failure { rarity } => rarity,
        Kind::Or { lag: _ } => 0,
        Kind::And { lag: _ } => 0,
    }
}

/// Whether the node is monitored, and its monitor is none of the doubts.
fn is_believed(graph: &Graph, doubts: Doubts, node: u32) -> bool
    ensures { result ≡ is_believed graph.now doubts node }
{
    graph.is_monitored(node) && !doubts.has(node)
}
