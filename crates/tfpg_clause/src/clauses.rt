//! The alternatives of clauses and their constraints.

ghost use Rattle.std.specs.Prelude.{◌≡◌, ◌<◌, ◌≤◌, length, All, IfSome, option_map, option_and_then, slice_get};
ghost use Rattle.std.specs.Result.{result_ok};
ghost use Rattle.tfpg_graph.specs.declared.limits.TheConstants.{MAX_INCOMING, MAX_NODES};
ghost use Rattle.tfpg_graph.specs.Graph.{is_or, is_and};
ghost use Rattle.tfpg_clause.specs.Clauses.{alternatives, must_in, count_of, constraint_at};
ghost use Rattle.tfpg_clause.specs.inside.ClausesByKind.{or_may, and_may, or_must, and_must};
ghost use Rattle.tfpg_base.specs.Choice.{item_at};
ghost use Rattle.tfpg_clause.specs.inside.Alternatives.{constraints_in, dues_over, target_of_kind};
ghost use Rattle.tfpg_clause.specs.inside.FirstSpan.{may_over};
ghost use Rattle.tfpg_clause.specs.inside.Ranges.{IsSmallWindow};

use crate::alternative::{Alternative, constraint_in};
use crate::may::{edge_of, find_span, may_alternative, may_count};
use crate::must::{find_joint, find_window, latest_due, must_alternative, must_count};
use crate::site::Site;
use tfpg_base::Constraint;
use tfpg_evidence::ClauseName;
use tfpg_graph::Graph;
use tfpg_log::{Log, Window};

/// The name of the clause is not allowed at the log.
#[derive(Clone, Copy, PartialEq, Eq)]
pub struct NotAClause;

/// How many alternatives the clause has. The name is refused where it is not allowed: where its horizon is after now, the
/// span does not begin by it, node or edge is none of the graph or not of the right kind, or a must has no window that
/// begins with the span and has room for each greatest delay. Takes no memory, and goes through the edges of the clause,
/// and for each through the spans of one window.
pub fn count(graph: &Graph, log: &Log, name: ClauseName) -> Result<u32, NotAClause>
    ensures { result_ok result ≡ count_of graph.now log.now name }
{
    match name {
        ClauseName::OrMay {
            node,
            span,
            horizon,
        } => count_or_may(
            &Site {
                graph,
                log,
                span,
                horizon,
            },
            node,
        ),
        ClauseName::AndMay {
            edge,
            span,
            horizon,
        } => count_and_may(
            &Site {
                graph,
                log,
                span,
                horizon,
            },
            edge,
        ),
        ClauseName::OrMust {
            edge,
            span,
            horizon,
        } => count_or_must(
            &Site {
                graph,
                log,
                span,
                horizon,
            },
            edge,
        ),
        ClauseName::AndMust {
            node,
            span,
            horizon,
        } => count_and_must(
            &Site {
                graph,
                log,
                span,
                horizon,
            },
            node,
        ),
    }
    .ok_or(NotAClause)
}

/// The constraint at this place in an alternative of the clause, both numbered from 1. The name is refused
/// as [`count`] refuses it, and the cost is the same.
pub fn constraint(
    graph: &Graph,
    log: &Log,
    name: ClauseName,
    alternative: u32,
    place: u32,
) -> Result<Option<Constraint>, NotAClause>
    ensures { result_ok result
        ≡ option_map (λ clause. constraint_at clause alternative place)
        (alternatives graph.now log.now name) }
{
    match alternative_of(graph, log, name, alternative)? {
        Some(found) => Ok(constraint_in(found, place)),
        None => Ok(None),
    }
}

/// The alternative of this number of the clause, counted from 1, where there is one.
pub(crate) fn alternative_of(
    graph: &Graph,
    log: &Log,
    name: ClauseName,
    alternative: u32,
) -> Result<Option<Alternative>, NotAClause>
    ensures { option_map (option_map constraints_in) (result_ok result)
        ≡ option_map (λ clause. item_at clause alternative) (alternatives graph.now log.now name) }
{
    match name {
        ClauseName::OrMay {
            node,
            span,
            horizon,
        } => or_may_alternative(
            &Site {
                graph,
                log,
                span,
                horizon,
            },
            node,
            alternative,
        ),
        ClauseName::AndMay {
            edge,
            span,
            horizon,
        } => and_may_alternative(
            &Site {
                graph,
                log,
                span,
                horizon,
            },
            edge,
            alternative,
        ),
        ClauseName::OrMust {
            edge,
            span,
            horizon,
        } => or_must_alternative(
            &Site {
                graph,
                log,
                span,
                horizon,
            },
            edge,
            alternative,
        ),
        ClauseName::AndMust {
            node,
            span,
            horizon,
        } => and_must_alternative(
            &Site {
                graph,
                log,
                span,
                horizon,
            },
            node,
            alternative,
        ),
    }
}

fn count_or_may(site: &Site<'_>, node: u32) -> Option<u32>
    ensures { result ≡ option_map length
        (or_may site.now.graph.now site.now.log.now node site.now.span site.now.horizon) }
{
    if !site.graph.is_or(node) {
        return None;
    }
    may_count(site, site.graph.incoming(node))
}

fn count_and_may(site: &Site<'_>, edge: u32) -> Option<u32>
    ensures { result ≡ option_map length
        (option_and_then (λ e. and_may site.now.graph.now site.now.log.now e site.now.span site.now.horizon)
        (slice_get site.now.graph.now.edges edge)) }
{
    let target = and_target(site.graph, edge)?;
    may_count(site, &[edge])
}

fn count_or_must(site: &Site<'_>, edge: u32) -> Option<u32>
    ensures { result ≡ option_map length
        (option_and_then (λ e. or_must site.now.graph.now site.now.log.now e site.now.span site.now.horizon)
        (slice_get site.now.graph.now.edges edge)) }
{
    let target = or_target(site.graph, edge)?;
    let window = find_window(site, edge)?;
    must_count(site, &[edge], window)
}

fn count_and_must(site: &Site<'_>, node: u32) -> Option<u32>
    ensures { result ≡ option_map length
        (and_must site.now.graph.now site.now.log.now node site.now.span site.now.horizon) }
{
    if !site.graph.is_and(node) {
        return None;
    }
    let window = find_joint(site, node)?;
    must_count(site, site.graph.incoming(node), window)
}

fn or_may_alternative(
    site: &Site<'_>,
    node: u32,
    alternative: u32,
) -> Result<Option<Alternative>, NotAClause>
    ensures { option_map (option_map constraints_in) (result_ok result)
        ≡ option_map (λ clause. item_at clause alternative)
        (or_may site.now.graph.now site.now.log.now node site.now.span site.now.horizon) }
{
    if !site.graph.is_or(node) {
        return Err(NotAClause);
    }
    let edges = site.graph.incoming(node);
    may_alternative_in(site, node, edges, alternative)
}

fn and_may_alternative(
    site: &Site<'_>,
    edge: u32,
    alternative: u32,
) -> Result<Option<Alternative>, NotAClause>
    ensures { option_map (option_map constraints_in) (result_ok result)
        ≡ option_map (λ clause. item_at clause alternative)
        (option_and_then (λ e. and_may site.now.graph.now site.now.log.now e site.now.span site.now.horizon)
        (slice_get site.now.graph.now.edges edge)) }
{
    let target = and_target(site.graph, edge).ok_or(NotAClause)?;
    may_alternative_in(site, target, &[edge], alternative)
}

fn or_must_alternative(
    site: &Site<'_>,
    edge: u32,
    alternative: u32,
) -> Result<Option<Alternative>, NotAClause>
    ensures { option_map (option_map constraints_in) (result_ok result)
        ≡ option_map (λ clause. item_at clause alternative)
        (option_and_then (λ e. or_must site.now.graph.now site.now.log.now e site.now.span site.now.horizon)
        (slice_get site.now.graph.now.edges edge)) }
{
    let target = or_target(site.graph, edge).ok_or(NotAClause)?;
    let window = find_window(site, edge).ok_or(NotAClause)?;
    must_alternative_in(site, target, &[edge], window, alternative)
}

fn and_must_alternative(
    site: &Site<'_>,
    node: u32,
    alternative: u32,
) -> Result<Option<Alternative>, NotAClause>
    ensures { option_map (option_map constraints_in) (result_ok result)
        ≡ option_map (λ clause. item_at clause alternative)
        (and_must site.now.graph.now site.now.log.now node site.now.span site.now.horizon) }
{
    if !site.graph.is_and(node) {
        return Err(NotAClause);
    }
    let window = find_joint(site, node).ok_or(NotAClause)?;
    let edges = site.graph.incoming(node);
    must_alternative_in(site, node, edges, window, alternative)
}

/// The alternative of a may in the span of the site.
fn may_alternative_in(
    site: &Site<'_>,
    node: u32,
    edges: &[u32],
    alternative: u32,
) -> Result<Option<Alternative>, NotAClause>
    requires node { node < MAX_NODES }
    requires edges { All (λ edge. edge < length site.now.graph.now.edges) edges.now }
    ensures { option_map (option_map constraints_in) (result_ok result)
        ≡ option_map (λ clause. item_at clause alternative)
        (may_over site.now.graph.now site.now.log.now node edges.now site.now.horizon site.now.span) }
{
    let span = find_span(site).ok_or(NotAClause)?;
    Ok(may_alternative(site, node, edges, span, alternative))
}

/// The alternative of a must in this window.
fn must_alternative_in(
    site: &Site<'_>,
    node: u32,
    edges: &[u32],
    window: Window,
    alternative: u32,
) -> Result<Option<Alternative>, NotAClause>
    requires node { node < MAX_NODES }
    requires edges { All (λ edge. edge < length site.now.graph.now.edges) edges.now }
    requires few { length edges.now ≤ MAX_INCOMING }
    requires small { IsSmallWindow window }
    ensures { option_map (option_map constraints_in) (result_ok result)
        ≡ option_map (λ clause. item_at clause alternative)
        (option_and_then (λ dues. must_in node site.now.span window dues)
        (dues_over site.now.graph.now site.now.log.now site.now.span site.now.horizon edges.now)) }
{
    if window.first != site.span {
        return Err(NotAClause);
    }
    let latest = latest_due(site, edges, window.hi, &[]).ok_or(NotAClause)?;
    Ok(must_alternative(site, node, edges, window.hi, latest, alternative))
}

/// The target of the edge, where it is an AND node.
pub(crate) fn and_target(graph: &Graph, edge: u32) -> Option<u32>
    ensures value { result ≡ target_of_kind is_and graph.now (slice_get graph.now.edges edge) }
    ensures within { IfSome result (λ target. target < length graph.now.nodes) }
    ensures small { IfSome result (λ target. (target < MAX_NODES) × (edge < length graph.now.edges)) }
{
    target_of(graph, edge).filter(|target| graph.is_and(*target))
}

/// The target of the edge, where it is an OR node.
pub(crate) fn or_target(graph: &Graph, edge: u32) -> Option<u32>
    ensures value { result ≡ target_of_kind is_or graph.now (slice_get graph.now.edges edge) }
    ensures within { IfSome result (λ target. target < length graph.now.nodes) }
    ensures small { IfSome result (λ target. (target < MAX_NODES) × (edge < length graph.now.edges)) }
{
    target_of(graph, edge).filter(|target| graph.is_or(*target))
}

/// The target of the edge, where it is an edge of the graph.
fn target_of(graph: &Graph, edge: u32) -> Option<u32>
    ensures value { result ≡ option_map (λ e. e.target) (slice_get graph.now.edges edge) }
    ensures small { IfSome result (λ target. (target < MAX_NODES) × (edge < length graph.now.edges)) }
{
    if edge >= graph.edge_count() {
        return None;
    }
    Some(edge_of(graph, edge).target)
}
