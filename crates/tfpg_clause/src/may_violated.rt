//! The first span in which times violate a may clause.
//!
//! In each span that does not hold the node's time, the first two alternatives meet the clause. So only the span that
//! holds it is looked at.

ghost use Rattle.std.specs.Prelude.{◌<◌, ◌≤◌, ◌↔◌, length, All, IsTrue, IsSomeAnd};
ghost use Rattle.tfpg_base.specs.declared.limits.TheConstants.{NEVER};
ghost use Rattle.tfpg_base.specs.Constraint.{Meets};
ghost use Rattle.tfpg_log.specs.Log.{now_of};
ghost use Rattle.tfpg_clause.specs.declared.clause_kind.ClauseKind.TheVariants.{OrMay, AndMay};
ghost use Rattle.tfpg_clause.specs.Clauses.{MeetsClause};
ghost use Rattle.tfpg_clause.specs.Cut.{AreNumbers};
ghost use Rattle.tfpg_clause.specs.inside.Alternatives.{arrival_over, arrivals_over};
ghost use Rattle.tfpg_clause.specs.inside.FirstSpan.{FindsFirst, clauses_of, may_over};
ghost use Rattle.tfpg_clause.specs.inside.Ranges.{IsSmallSpan};

use crate::clauses::and_target;
use crate::facts::now;
use crate::may::{arrival_over, find_span};
use crate::meets::meets;
use crate::site::Site;
use tfpg_graph::Graph;
use tfpg_log::{Log, Span};

/// The first span in which the times violate the clause that an OR node becomes active only where the failure arrives.
pub(crate) fn or_may_violated(graph: &Graph, log: &Log, times: &[u64], node: u32) -> Option<u32>
    requires { AreNumbers graph.now times.now }
    ensures { FindsFirst times.now (clauses_of graph.now log.now OrMay node) result }
{
    if !graph.is_or(node) {
        return None;
    }
    may_violated(graph, log, times, node, graph.incoming(node))
}

/// The first span in which the times violate the clause that an AND node becomes active only where the failure arrives by
/// the edge.
pub(crate) fn and_may_violated(graph: &Graph, log: &Log, times: &[u64], edge: u32) -> Option<u32>
    requires { AreNumbers graph.now times.now }
    ensures { FindsFirst times.now (clauses_of graph.now log.now AndMay edge) result }
{
    let target = and_target(graph, edge)?;
    may_violated(graph, log, times, target, &[edge])
}

/// The first span in which the times violate the clause that the node becomes active only where the failure arrives by one
/// of these edges.
fn may_violated(graph: &Graph, log: &Log, times: &[u64], node: u32, edges: &[u32]) -> Option<u32>
    requires node { node < length times.now }
    requires edges { All (λ edge. edge < length graph.now.edges) edges.now }
    requires in_range { All (λ time. time ≤ NEVER) times.now }
    ensures { FindsFirst times.now (may_over graph.now log.now node edges.now (now_of log.now)) result }
{
    let number = log.span_of(times[node as usize])?;
    let site = Site {
        graph,
        log,
        span: number,
        horizon: now(log),
    };
    let span = find_span(&site)?;
    if has_arrived(&site, times, edges, span) {
        return None;
    }
    Some(number)
}

/// Whether the failure arrives by one of these edges within the span, at the times.
fn has_arrived(site: &Site<'_>, times: &[u64], edges: &[u32], span: Span) -> bool
    requires edges { All (λ edge. edge < length site.now.graph.now.edges) edges.now }
    requires in_range { All (λ time. time ≤ NEVER) times.now }
    requires small { IsSmallSpan span }
    ensures { IsTrue result
        ↔ MeetsClause times.now
        (arrivals_over site.now.graph.now site.now.log.now site.now.span site.now.horizon span edges.now) }
{
    for edge in edges {
        if has_arrived_by(site, times, *edge, span) {
            return true;
        }
    }
    false
}

/// Whether the failure arrives by the edge within the span, at the times.
fn has_arrived_by(site: &Site<'_>, times: &[u64], edge: u32, span: Span) -> bool
    requires edge { edge < length site.now.graph.now.edges }
    requires in_range { All (λ time. time ≤ NEVER) times.now }
    requires small { IsSmallSpan span }
    ensures { IsTrue result
        ↔ IsSomeAnd (arrival_over site.now.graph.now site.now.log.now site.now.span site.now.horizon span
        edge) (All (Meets times.now)) }
{
    match arrival_over(site, edge, span) {
        Some(alternative) => meets(times, alternative),
        None => false,
    }
}
