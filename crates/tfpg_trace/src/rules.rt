//! The first node of a trace that breaks a propagation rule.

ghost use Rattle.std.specs.Prelude.{◌<◌, ◌≤◌, ℕ, length, MatchOption};
ghost use Rattle.tfpg_log.specs.Log.{now_of};
ghost use Rattle.tfpg_log.specs.Rules.{KeepsMay, KeepsRulesOf};
ghost use Rattle.tfpg_trace.specs.Broken.{BreaksMay};
ghost use Rattle.tfpg_trace.specs.inside.RuleFaults.{KeepRulesBefore, IsBroken, IsFirstNodeBroken};

use crate::Verdict;
use crate::may::keeps_may;
use crate::must::first_must_fault;
use crate::trace_table::TraceTable;
use tfpg_graph::Graph;
use tfpg_log::Log;

/// What is said of the first node that breaks a rule. Goes through the nodes, and at each through the edges into it. For the
/// may rule of a node that becomes active it goes through one window of each, and for the must rule of a node whose edges can
/// become due through the spans, and in each through these edges.
pub(crate) fn broken_rule(graph: &Graph, log: &Log, trace: &TraceTable<'_>) -> Option<Verdict>
    ensures { MatchOption result
        (KeepRulesBefore graph.now log.now trace.now (length graph.now.nodes))
        (IsFirstNodeBroken graph.now log.now trace.now) }
{
    for node in 0..graph.node_count() {
        if let Some(fault) = broken_at(graph, log, trace, node) {
            return Some(fault);
        }
    }
    None
}

/// What is said of the node, where it breaks a rule: the may rule, or else the must rule alone.
fn broken_at(graph: &Graph, log: &Log, trace: &TraceTable<'_>, node: u32) -> Option<Verdict>
    requires { node < length graph.now.nodes }
    ensures { MatchOption result
        (KeepsRulesOf graph.now log.now trace.now node)
        (IsBroken graph.now log.now trace.now node) }
{
    if let Some(time) = may_fault(graph, log, trace, node) {
        return Some(Verdict::May { node, time });
    }
    let time = first_must_fault(graph, log, trace, node)?;
    Some(Verdict::Must { node, time })
}

/// The time of the node, where it breaks the may rule at it.
fn may_fault(graph: &Graph, log: &Log, trace: &TraceTable<'_>, node: u32) -> Option<u64>
    requires { node < length graph.now.nodes }
    ensures { MatchOption result
        ((instant : ℕ) → instant ≤ now_of log.now → KeepsMay graph.now log.now trace.now node instant)
        (BreaksMay graph.now log.now trace.now node) }
{
    let time = trace.at(node)?;
    if time > log.now() {
        return None;
    }
    if keeps_may(graph, log, trace, node, time) {
        return None;
    }
    Some(time)
}
