//! When each discrepancy is activated next, by what is active so far.

ghost use Rattle.std.specs.Prelude.{◌≡◌, ◌≤◌, ◌<◌, ◌+◌, ◌^◌, ℕ, List, length, IfOk, Option, None, MatchOption};
ghost use Rattle.tfpg_base.specs.declared.activation.Activation.{Activation};
ghost use Rattle.tfpg_base.specs.Trace.{time_of, with_time};
ghost use Rattle.tfpg_graph.specs.declared.limits.TheConstants.{MAX_NODES};
ghost use Rattle.tfpg_log.specs.Log.{Logbook};
ghost use Rattle.tfpg_sim.specs.inside.Arrivals.{IsDelayed, AreNearTimes};
ghost use Rattle.tfpg_sim.specs.inside.ModeSpans.{AreSpans};
ghost use Rattle.tfpg_sim.specs.inside.Settling.{simulation_case, IsCandidate, AreCandidates, IsEarliest, IsEarliestBelow, candidate_at};

use crate::arrival::first_arrival;
use crate::delayed::Delayed;
use std::alloc::Global;
use tfpg_base::{NoMemory, Trace};

/// The candidates of all nodes. Costs the first arrival at each node.
pub(crate) fn first_candidates(
    alloc: Global,
    delayed: &Delayed<'_>,
    trace: &Trace,
) -> Result<Vec<Option<u64>>, NoMemory>
    requires delayed { IsDelayed delayed.now }
    requires times { AreNearTimes trace.now }
    ensures { IfOk result (λ candidates. (log : Logbook) (limit : ℕ) →
        AreSpans log (limit + 1) 0 delayed.now.spans.now →
        AreCandidates (simulation_case delayed.now.graph.now log delayed.now.delays.now limit) trace.now candidates.items) }
{
    let mut candidates = Vec::new(alloc);
    for node in 0..delayed.graph.node_count() {
        candidates.push(candidate(alloc, delayed, trace, node)?)?;
    }
    Ok(candidates)
}

/// The candidates once one more node is active. Costs the first arrival at each node to which an edge goes from that one.
pub(crate) fn candidates_after(
    alloc: Global,
    delayed: &Delayed<'_>,
    trace: &Trace,
    settled: u32,
    candidates: &[Option<u64>],
) -> Result<Vec<Option<u64>>, NoMemory>
    requires settled { settled < length delayed.now.graph.now.nodes }
    requires count { length candidates.now ≡ length delayed.now.graph.now.nodes }
    requires delayed { IsDelayed delayed.now }
    requires times { AreNearTimes trace.now }
    ensures { IfOk result (λ next. (log : Logbook) (limit : ℕ) (before : List Activation) (time : ℕ) →
        AreSpans log (limit + 1) 0 delayed.now.spans.now →
        trace.now ≡ with_time settled time before → time_of before settled ≡ None →
        AreCandidates (simulation_case delayed.now.graph.now log delayed.now.delays.now limit) before candidates.now →
        AreCandidates (simulation_case delayed.now.graph.now log delayed.now.delays.now limit) trace.now next.items) }
{
    let mut next = Vec::new(alloc);
    for node in 0..delayed.graph.node_count() {
        let before = candidates[node as usize];
        next.push(candidate_after(alloc, delayed, trace, settled, node, before)?)?;
    }
    Ok(next)
}

/// The candidate of the node once one more node is active. It is the same where no edge comes from that one.
fn candidate_after(
    alloc: Global,
    delayed: &Delayed<'_>,
    trace: &Trace,
    settled: u32,
    node: u32,
    candidate_before: Option<u64>,
) -> Result<Option<u64>, NoMemory>
    requires settled { settled < length delayed.now.graph.now.nodes }
    requires node { node < length delayed.now.graph.now.nodes }
    requires delayed { IsDelayed delayed.now }
    requires times { AreNearTimes trace.now }
    ensures { IfOk result (λ next. (log : Logbook) (limit : ℕ) (before : List Activation) (time : ℕ) →
        AreSpans log (limit + 1) 0 delayed.now.spans.now →
        trace.now ≡ with_time settled time before → time_of before settled ≡ None →
        IsCandidate (simulation_case delayed.now.graph.now log delayed.now.delays.now limit) before node candidate_before →
        IsCandidate (simulation_case delayed.now.graph.now log delayed.now.delays.now limit) trace.now node next) }
{
    if node != settled && delayed.graph.edge_between(settled, node).is_none() {
        return Ok(candidate_before);
    }
    candidate(alloc, delayed, trace, node)
}

/// The first arrival at the node, where it is a discrepancy that is not active yet.
fn candidate(
    alloc: Global,
    delayed: &Delayed<'_>,
    trace: &Trace,
    node: u32,
) -> Result<Option<u64>, NoMemory>
    requires node { node < length delayed.now.graph.now.nodes }
    requires delayed { IsDelayed delayed.now }
    requires times { AreNearTimes trace.now }
    ensures { IfOk result (λ candidate. (log : Logbook) (limit : ℕ) →
        AreSpans log (limit + 1) 0 delayed.now.spans.now →
        IsCandidate (simulation_case delayed.now.graph.now log delayed.now.delays.now limit) trace.now node candidate) }
{
    if delayed.graph.kind(node).is_failure() {
        return Ok(None);
    }
    if trace.at(node).is_some() {
        return Ok(None);
    }
    first_arrival(alloc, delayed, trace, node)
}

/// The node with the least candidate, and its time.
pub(crate) fn earliest(candidates: &[Option<u64>]) -> Option<(u32, u64)>
    requires { length candidates.now ≤ MAX_NODES }
    ensures { MatchOption result ((node : ℕ) → candidate_at candidates.now node ≡ None)
        (λ found. IsEarliest candidates.now found.0 found.1) }
{
    let mut best = None;
    for (node, candidate) in candidates.iter().enumerate() {
        best = earlier_of(best, node as u32, *candidate);
    }
    best
}

/// The earlier of what was found and the node's candidate.
fn earlier_of(best: Option<(u32, u64)>, node: u32, candidate: Option<u64>) -> Option<(u32, u64)>
    ensures { (candidates : List (Option ℕ)) → candidate_at candidates node ≡ candidate →
        IsEarliestBelow candidates node best → IsEarliestBelow candidates (node + 1) result }
{
    let Some(time) = candidate else {
        return best;
    };
    match best {
        Some((other, least)) => {
            if least <= time {
                Some((other, least))
            } else {
                Some((node, time))
            }
        }
        None => Some((node, time)),
    }
}
