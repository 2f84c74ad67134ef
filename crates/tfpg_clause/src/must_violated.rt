//! The first span in which times violate a must clause.
//!
//! Only the first span of a window has a must clause. So after a window the search continues with the spans after it. It begins
//! where the node is overdue, and ends with the span of the node's time.

ghost use Rattle.std.specs.Prelude.{◌≡◌, ◌<◌, ◌≤◌, ◌↔◌, ℕ, length, All, Contains, IsTrue, IsSomeAnd, IfSome};
ghost use Rattle.tfpg_base.specs.declared.limits.TheConstants.{MAX_TIME, NEVER};
ghost use Rattle.tfpg_log.specs.Log.{now_of};
ghost use Rattle.tfpg_clause.specs.declared.clause_kind.ClauseKind.TheVariants.{OrMust, AndMust};
ghost use Rattle.tfpg_clause.specs.Cut.{AreNumbers};
ghost use Rattle.tfpg_clause.specs.inside.Alternatives.{due_by_number, dues_over};
ghost use Rattle.tfpg_clause.specs.inside.FirstSpan.{FindsFirst, clauses_of, MeetsUpTo, MeetsBefore, MeetsIfAny, must_over, IsExcused};
ghost use Rattle.tfpg_clause.specs.inside.KnownWindows.{IsWindowOver, AreKnown};
ghost use Rattle.tfpg_clause.specs.inside.Musts.{IsMustOf, musts_of, window_by};
ghost use Rattle.tfpg_clause.specs.inside.Ranges.{IsSmallWindow};

use crate::clauses::or_target;
use crate::facts::now;
use crate::known_windows::{known_at, take_windows, window_over};
use crate::meets::meets;
use crate::must::{due_by_number, find_joint, follows_in_time, latest_due, starts_late};
use crate::overdue::overdue_from;
use crate::site::Site;
use tfpg_graph::{Graph, MAX_INCOMING};
use tfpg_log::{Log, Window};

/// A node, and edges into it by all of which the failure is due: one edge into an OR node, or all edges into an AND node.
#[derive(Clone, Copy)]
struct Must<'a> {
    node: u32,
    edges: &'a [u32],
    /// The edge into an OR node, and None where the node is an AND node.
    edge: Option<u32>,
}

/// The first span in which the times violate the clause that an OR node is active once the failure is due by the edge.
pub(crate) fn or_must_violated(graph: &Graph, log: &Log, times: &[u64], edge: u32) -> Option<u32>
    requires { AreNumbers graph.now times.now }
    ensures { FindsFirst times.now (clauses_of graph.now log.now OrMust edge) result }
{
    let must = Must {
        node: or_target(graph, edge)?,
        edges: &[edge],
        edge: Some(edge),
    };
    must_violated(graph, log, times, &must, &mut [None])
}

/// The first span in which the times violate the clause that an AND node is active once the failure is due by all edges.
pub(crate) fn and_must_violated(graph: &Graph, log: &Log, times: &[u64], node: u32) -> Option<u32>
    requires { AreNumbers graph.now times.now }
    ensures { FindsFirst times.now (clauses_of graph.now log.now AndMust node) result }
{
    if !graph.is_and(node) {
        return None;
    }
    let must = Must {
        node,
        edges: graph.incoming(node),
        edge: None,
    };
    let mut known: [Option<Window>; MAX_INCOMING] = [None; MAX_INCOMING];
    must_violated(graph, log, times, &must, &mut known)
}

/// The first span in which the times violate its must clause. There is room for what is known of the windows of the edges.
fn must_violated(
    graph: &Graph,
    log: &Log,
    times: &[u64],
    must: &Must<'_>,
    known: &mut [Option<Window>],
) -> Option<u32>
    requires must { IsMustOf graph.now must.now }
    requires numbers { AreNumbers graph.now times.now }
    requires room { length must.now.edges.now ≤ length known.old }
    requires known { AreKnown graph.now log.now (now_of log.now) must.now.edges.now known.old }
    ensures { FindsFirst times.now (musts_of graph.now log.now must.now.node must.now.edge) result }
{
    let mut number = first_overdue(graph, log, times, must, known)?;
    let end = times[must.node as usize].min(now(log));
    let last = log.span_of(end)?;
    while let Some(until) = must_met_up_to(graph, log, times, must, number, known) {
        if until >= last {
            return None;
        }
        number = until + 1;
    }
    Some(number)
}

/// The first span whose must clause the times may violate, and none where they meet each. It is that of the instant from which
/// on the node is overdue, or the first one of the window round that instant.
fn first_overdue(
    graph: &Graph,
    log: &Log,
    times: &[u64],
    must: &Must<'_>,
    known: &mut [Option<Window>],
) -> Option<u32>
    requires must { IsMustOf graph.now must.now }
    requires numbers { AreNumbers graph.now times.now }
    requires room { length must.now.edges.now ≤ length known.old }
    requires known { AreKnown graph.now log.now (now_of log.now) must.now.edges.now known.old }
    ensures met { MeetsBefore times.now (musts_of graph.now log.now must.now.node must.now.edge) result }
    ensures known { AreKnown graph.now log.now (now_of log.now) must.now.edges.now known.new }
{
    let overdue = overdue_from(graph, times, must.edges)?;
    let number = log.span_of(overdue)?;
    let site = Site {
        graph,
        log,
        span: number,
        horizon: now(log),
    };
    match take_window(&site, must, known) {
        Some(window) => Some(window.first),
        None => Some(number),
    }
}

/// A span up to which the times meet the must clauses, from the span of this number on, or none where they violate that of
/// the span itself.
fn must_met_up_to(
    graph: &Graph,
    log: &Log,
    times: &[u64],
    must: &Must<'_>,
    number: u32,
    known: &mut [Option<Window>],
) -> Option<u32>
    requires must { IsMustOf graph.now must.now }
    requires numbers { AreNumbers graph.now times.now }
    requires room { length must.now.edges.now ≤ length known.old }
    requires known { AreKnown graph.now log.now (now_of log.now) must.now.edges.now known.old }
    ensures met { MeetsUpTo times.now (musts_of graph.now log.now must.now.node must.now.edge) number result }
    ensures known { AreKnown graph.now log.now (now_of log.now) must.now.edges.now known.new }
{
    let site = Site {
        graph,
        log,
        span: number,
        horizon: now(log),
    };
    match take_window(&site, must, known) {
        None => Some(number),
        Some(window) => {
            if is_must_met(&site, times, must, window, known) {
                log.span_of(window.hi)
            } else {
                None
            }
        }
    }
}

/// The window round the span of the site, where there is one: that of the edge into an OR node, or the
/// joint one of all edges. Where there is one, the windows of the edges are taken too, and those are not looked for that are
/// known from an earlier span.
fn take_window(site: &Site<'_>, must: &Must<'_>, known: &mut [Option<Window>]) -> Option<Window>
    requires must { IsMustOf site.now.graph.now must.now }
    requires room { length must.now.edges.now ≤ length known.old }
    requires known { AreKnown site.now.graph.now site.now.log.now site.now.horizon must.now.edges.now
        known.old }
    ensures value { result
        ≡ window_by site.now.graph.now site.now.log.now must.now.node must.now.edge site.now.span
        site.now.horizon }
    ensures small { IfSome result IsSmallWindow }
    ensures known { AreKnown site.now.graph.now site.now.log.now site.now.horizon must.now.edges.now
        known.new }
{
    match must.edge {
        Some(edge) => {
            let window = window_over(site, edge, known_at(known, 0))?;
            known[0] = Some(window);
            Some(window)
        }
        None => {
            let window = find_joint(site, must.node)?;
            take_windows(site, must.edges, known);
            Some(window)
        }
    }
}

/// Whether the times meet the clause that the node is active once the failure is due by all these edges, in this window,
/// where the span has that clause. At the index of an edge its window may be known.
fn is_must_met(
    site: &Site<'_>,
    times: &[u64],
    must: &Must<'_>,
    window: Window,
    known: &[Option<Window>],
) -> bool
    requires must { IsMustOf site.now.graph.now must.now }
    requires numbers { AreNumbers site.now.graph.now times.now }
    requires known { AreKnown site.now.graph.now site.now.log.now site.now.horizon must.now.edges.now
        known.now }
    requires small { IsSmallWindow window }
    ensures { IsTrue result ↔ MeetsIfAny times.now
        (must_over must.now.node site.now.span window
        (dues_over site.now.graph.now site.now.log.now site.now.span site.now.horizon must.now.edges.now)) }
{
    if window.first != site.span {
        return true;
    }
    let edges = must.edges;
    match latest_due(site, edges, window.hi, known) {
        Some(latest) => {
            times[must.node as usize] <= latest || is_excused(site, times, edges, window.hi, known)
        }
        None => true,
    }
}

/// Whether by one of these edges the failure starts too late to be due in a window that ends here, or the target follows
/// the source in time. At the index of an edge its window may be known.
fn is_excused(
    site: &Site<'_>,
    times: &[u64],
    edges: &[u32],
    hi: u64,
    known: &[Option<Window>],
) -> bool
    requires edges { All (λ edge. edge < length site.now.graph.now.edges) edges.now }
    requires known { AreKnown site.now.graph.now site.now.log.now site.now.horizon edges.now known.now }
    requires in_range { All (λ time. time ≤ NEVER) times.now }
    requires hi { hi ≤ MAX_TIME }
    ensures { IsTrue result
        ↔ ((edge : ℕ) × Contains edges.now edge
        × IsSomeAnd (due_by_number site.now.graph.now site.now.log.now site.now.span site.now.horizon edge)
        (IsExcused times.now hi)) }
{
    for index in 0..edges.len() {
        let own = known_at(known, index);
        if is_excused_by(site, times, edges[index], hi, own) {
            return true;
        }
    }
    false
}

/// Whether by the edge the failure starts too late to be due in a window that ends here, or the target follows the source
/// in time. A window of the edge may be known.
fn is_excused_by(site: &Site<'_>, times: &[u64], edge: u32, hi: u64, known: Option<Window>) -> bool
    requires edge { edge < length site.now.graph.now.edges }
    requires known { IfSome known (IsWindowOver site.now.graph.now site.now.log.now site.now.horizon edge) }
    requires in_range { All (λ time. time ≤ NEVER) times.now }
    requires hi { hi ≤ MAX_TIME }
    ensures { IsTrue result
        ↔ IsSomeAnd (due_by_number site.now.graph.now site.now.log.now site.now.span site.now.horizon edge)
        (IsExcused times.now hi) }
{
    match due_by_number(site, edge, known) {
        Some(due) => meets(times, starts_late(hi, due)) || meets(times, follows_in_time(due)),
        None => false,
    }
}
