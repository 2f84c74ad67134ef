//! The nodes of a trace that cannot be in it: those that are active after now, and the failure modes that are no members
//! of the set.

ghost use Rattle.std.specs.Prelude.{◌≡◌, ◌<◌, ℕ, ◌↔◌, false, length, nat_le, All, IsTrue, MatchOption};
ghost use Rattle.std.specs.List.{list_all};
ghost use Rattle.tfpg_trace.specs.FirstFault.{NoneBefore, IsFirstNode, IsLate, IsStranger};
ghost use Rattle.tfpg_trace.specs.inside.Strays.{IsOutside};

use crate::trace_table::TraceTable;
use tfpg_base::{Activation, Set};
use tfpg_graph::Graph;
use tfpg_log::Log;

/// The first node that the trace makes active after now, and when. Goes through the trace, and through the nodes if it has one.
pub(crate) fn first_late(graph: &Graph, log: &Log, trace: &TraceTable<'_>) -> Option<(u32, u64)>
    ensures { MatchOption result
        (NoneBefore (IsLate log.now trace.now) (length graph.now.nodes))
        (λ found. IsFirstNode (IsLate log.now trace.now) (length graph.now.nodes) found.0 found.1) }
{
    if all_upto(log.now(), trace.as_slice()) {
        return None;
    }
    for node in 0..graph.node_count() {
        if let Some(time) = late_time(log, trace, node) {
            return Some((node, time));
        }
    }
    None
}

/// The first failure mode that becomes active in the trace and is no member of the set, and when. Goes through the trace, and
/// through the nodes if it has one.
pub(crate) fn first_stranger(graph: &Graph, set: Set, trace: &TraceTable<'_>) -> Option<(u32, u64)>
    ensures { MatchOption result
        (NoneBefore (IsStranger graph.now set trace.now) (length graph.now.nodes))
        (λ found. IsFirstNode (IsStranger graph.now set trace.now) (length graph.now.nodes) found.0 found.1) }
{
    if has_no_outsider(graph, set, trace.as_slice()) {
        return None;
    }
    for node in 0..graph.node_count() {
        if let Some(time) = stranger_time(graph, set, trace, node) {
            return Some((node, time));
        }
    }
    None
}

/// Whether no activation is after the instant.
fn all_upto(instant: u64, activations: &[Activation]) -> bool
    ensures { result ≡ list_all (λ activation. nat_le activation.time instant) activations.now }
{
    activations
        .iter()
        .all(|activation| activation.time <= instant)
}

/// Whether no activation is of a failure mode that is no member of the set.
fn has_no_outsider(graph: &Graph, set: Set, activations: &[Activation]) -> bool
    ensures { IsTrue result → All (λ activation. activation.node < length graph.now.nodes →
        IsOutside graph.now set activation.node → ⊥) activations.now }
{
    for activation in activations {
        if may_be_outside(graph, set, activation.node) {
            return false;
        }
    }
    true
}

/// Whether the node is a failure mode of the graph and no member of the set. The number may be any.
fn may_be_outside(graph: &Graph, set: Set, node: u32) -> bool
    ensures { result ≡ false → node < length graph.now.nodes → IsOutside graph.now set node → ⊥ }
{
    node < graph.node_count() && is_outside(graph, set, node)
}

/// The time of the node, where it is after now.
fn late_time(log: &Log, trace: &TraceTable<'_>, node: u32) -> Option<u64>
    ensures { MatchOption result
        ((time : ℕ) → IsLate log.now trace.now node time → ⊥)
        (IsLate log.now trace.now node) }
{
    let time = trace.at(node)?;
    if time > log.now() { Some(time) } else { None }
}

/// The time of the node, where it is a failure mode and no member of the set.
fn stranger_time(graph: &Graph, set: Set, trace: &TraceTable<'_>, node: u32) -> Option<u64>
    requires { node < length graph.now.nodes }
    ensures { MatchOption result
        ((time : ℕ) → IsStranger graph.now set trace.now node time → ⊥)
        (IsStranger graph.now set trace.now node) }
{
    if is_outside(graph, set, node) {
        trace.at(node)
    } else {
        None
    }
}

/// Whether the node is a failure mode and no member of the set.
fn is_outside(graph: &Graph, set: Set, node: u32) -> bool
    requires { node < length graph.now.nodes }
    ensures { IsTrue result ↔ IsOutside graph.now set node }
{
    match graph.place_of(node) {
        Some(position) => !set.has(position),
        None => false,
    }
}
