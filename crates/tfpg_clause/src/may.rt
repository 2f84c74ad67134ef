//! May clauses: a node becomes active in a span only where the failure arrives by one of some edges.

ghost use Rattle.std.specs.Prelude.{◌≡◌, ◌<◌, ◌≤◌, ◌++◌, ℕ, length, All, Some, IfSome, option_map, slice_get};
ghost use Rattle.tfpg_graph.specs.declared.limits.TheConstants.{MAX_INCOMING, MAX_NODES};
ghost use Rattle.tfpg_log.specs.Spans.{span_at};
ghost use Rattle.tfpg_clause.specs.Clauses.{outside_span};
ghost use Rattle.tfpg_base.specs.Choice.{item_at};
ghost use Rattle.tfpg_clause.specs.inside.Ranges.{IsSmallEdge, IsSmallSpan};
ghost use Rattle.tfpg_clause.specs.inside.Alternatives.{constraints_in, arrival_over, arrivals_over};
ghost use Rattle.tfpg_clause.specs.inside.FirstSpan.{may_over};

use crate::alternative::Alternative;
use crate::bounds::{at_least, at_least_after, at_most, at_most_before};
use crate::site::Site;
use tfpg_graph::{Edge, Graph};
use tfpg_log::Span;

/// The alternative of this number, counted from 1, of the clause that the node becomes active in the span only where the
/// failure arrives by one of these edges.
pub(crate) fn may_alternative(
    site: &Site<'_>,
    node: u32,
    edges: &[u32],
    span: Span,
    alternative: u32,
) -> Option<Alternative>
    requires node { node < MAX_NODES }
    requires edges { All (λ edge. edge < length site.now.graph.now.edges) edges.now }
    requires small { IsSmallSpan span }
    ensures { option_map constraints_in result
        ≡ item_at
        (outside_span node span
        ++ arrivals_over site.now.graph.now site.now.log.now site.now.span site.now.horizon span edges.now)
        alternative }
{
    match alternative {
        0 => None,
        1 => Some(Alternative::One(at_most_before(node, span.lo))),
        2 => Some(Alternative::One(at_least(node, span.hi + 1))),
        _ => arrival_at(site, edges, span, alternative - 3),
    }
}

/// How many alternatives the clause has that a node becomes active in the span of the site only where the failure
/// arrives by one of these edges, where there is such a span.
pub(crate) fn may_count(site: &Site<'_>, edges: &[u32]) -> Option<u32>
    requires edges { All (λ edge. edge < length site.now.graph.now.edges) edges.now }
    requires few { length edges.now ≤ MAX_INCOMING }
    ensures { (node : ℕ) → result
        ≡ option_map length (may_over site.now.graph.now site.now.log.now node edges.now site.now.horizon
        site.now.span) }
{
    let span = find_span(site)?;
    Some(2 + arrival_count(site, edges, span))
}

/// How many of these edges the failure may arrive by within the span.
fn arrival_count(site: &Site<'_>, edges: &[u32], span: Span) -> u32
    requires edges { All (λ edge. edge < length site.now.graph.now.edges) edges.now }
    requires few { length edges.now ≤ MAX_INCOMING }
    requires small { IsSmallSpan span }
    ensures count { result ≡ length
        (arrivals_over site.now.graph.now site.now.log.now site.now.span site.now.horizon span edges.now) }
    ensures few { result ≤ MAX_INCOMING }
{
    let mut count = 0;
    for edge in edges {
        if arrival_over(site, *edge, span).is_some() {
            count += 1;
        }
    }
    count
}

/// The alternative of the edge of this number, counted from 0, among those of these edges that the failure may arrive by.
fn arrival_at(site: &Site<'_>, edges: &[u32], span: Span, index: u32) -> Option<Alternative>
    requires edges { All (λ edge. edge < length site.now.graph.now.edges) edges.now }
    requires small { IsSmallSpan span }
    ensures { option_map constraints_in result
        ≡ slice_get (arrivals_over site.now.graph.now site.now.log.now site.now.span site.now.horizon span
        edges.now) index }
{
    let mut left = index;
    for edge in edges {
        let arrival = arrival_over(site, *edge, span);
        if arrival.is_some() {
            if left == 0 {
                return arrival;
            }
            left -= 1;
        }
    }
    None
}

/// The alternative that the failure arrives by the edge within the span, where it can: the edge's window began the least
/// delay before the end of the span, or earlier.
pub(crate) fn arrival_over(site: &Site<'_>, edge: u32, span: Span) -> Option<Alternative>
    requires edge { edge < length site.now.graph.now.edges }
    requires small { IsSmallSpan span }
    ensures { option_map constraints_in result
        ≡ arrival_over site.now.graph.now site.now.log.now site.now.span site.now.horizon span edge }
{
    let window = site
        .log
        .window_of(site.graph, edge, site.span, site.horizon)?;
    let propagation = edge_of(site.graph, edge);
    let earliest = window.lo.checked_add(propagation.tmin)?;
    if earliest > span.hi {
        return None;
    }
    Some(Alternative::Arrival([
        at_least_after(propagation.target, propagation.source, propagation.tmin),
        at_least(propagation.target, span.lo.max(earliest)),
        at_most(propagation.target, span.hi),
    ]))
}

/// The edge, whose nodes and delays fit the numbers of a constraint.
pub(crate) fn edge_of(graph: &Graph, edge: u32) -> Edge
    requires { edge < length graph.now.edges }
    ensures value { slice_get graph.now.edges edge ≡ Some result }
    ensures small { IsSmallEdge result }
{
    graph.is_always_valid();
    graph.edge(edge)
}

/// The span of the site, where there is one.
pub(crate) fn find_span(site: &Site<'_>) -> Option<Span>
    ensures value { result ≡ span_at site.now.log.now site.now.span site.now.horizon }
    ensures small { IfSome result IsSmallSpan }
{
    site.log.is_always_ordered();
    site.log.span(site.span, site.horizon)
}
