//! Must clauses: a node is active once the failure is due by all of some edges.

ghost use Rattle.std.specs.Prelude.{◌≡◌, ◌<◌, ◌≤◌, ℕ, List, length, All, Some, IfSome, option_map, option_and_then, slice_get};
ghost use Rattle.tfpg_base.specs.declared.limits.TheConstants.{MAX_TIME};
ghost use Rattle.tfpg_graph.specs.declared.limits.TheConstants.{MAX_INCOMING, MAX_NODES};
ghost use Rattle.tfpg_log.specs.Spans.{window_of, joint_of};
ghost use Rattle.tfpg_clause.specs.Clauses.{Due, must_in, must_alternatives, starts_late, follows_in_time};
ghost use Rattle.tfpg_base.specs.Choice.{item_at};
ghost use Rattle.tfpg_clause.specs.inside.Ranges.{IsSmallDue, IsSmallWindow};
ghost use Rattle.tfpg_clause.specs.inside.Alternatives.{constraints_in, due_seen, due_by_number, dues_over, latest_within};
ghost use Rattle.tfpg_clause.specs.inside.KnownWindows.{IsWindowOver, AreKnown};

use crate::alternative::Alternative;
use crate::bounds::{at_least, at_most, at_most_after};
use crate::due::EdgeDue;
use crate::known_windows::{known_at, window_over};
use crate::may::edge_of;
use crate::site::Site;
use tfpg_log::Window;

/// How many alternatives the clause has that a node is active once the failure is due by all these edges, where it is
/// allowed: its window begins with the span, and has room for each greatest delay, which is finite.
pub(crate) fn must_count(site: &Site<'_>, edges: &[u32], window: Window) -> Option<u32>
    requires edges { All (λ edge. edge < length site.now.graph.now.edges) edges.now }
    requires few { length edges.now ≤ MAX_INCOMING }
    ensures { (target : ℕ) → result ≡ option_map length
        (option_and_then (λ dues. must_in target site.now.span window dues)
        (dues_over site.now.graph.now site.now.log.now site.now.span site.now.horizon edges.now)) }
{
    if window.first != site.span {
        return None;
    }
    latest_due(site, edges, window.hi, &[])?;
    Some(2 * edges.len() as u32 + 1)
}

/// The alternative of this number, counted from 1, of the clause that the node is active once the failure is due by all
/// these edges, in a window that ends here and has room for all.
pub(crate) fn must_alternative(
    site: &Site<'_>,
    node: u32,
    edges: &[u32],
    hi: u64,
    latest: u64,
    alternative: u32,
) -> Option<Alternative>
    requires node { node < MAX_NODES }
    requires edges { All (λ edge. edge < length site.now.graph.now.edges) edges.now }
    requires few { length edges.now ≤ MAX_INCOMING }
    requires hi { hi ≤ MAX_TIME }
    requires latest { latest ≤ hi }
    requires dues { latest_within hi
        (dues_over site.now.graph.now site.now.log.now site.now.span site.now.horizon edges.now)
        ≡ Some latest }
    ensures { (dues : List Due)
        → dues_over site.now.graph.now site.now.log.now site.now.span site.now.horizon edges.now ≡ Some dues →
        option_map constraints_in result ≡ item_at (must_alternatives node hi dues) alternative }
{
    let count = edges.len() as u32;
    let index = alternative.checked_sub(1)?;
    if index < count {
        let due = due_by_number(site, edges[index as usize], None)?;
        return Some(starts_late(hi, due));
    }
    if index < 2 * count {
        let due = due_by_number(site, edges[(index - count) as usize], None)?;
        return Some(follows_in_time(due));
    }
    if index == 2 * count {
        return Some(Alternative::One(at_most(node, latest)));
    }
    None
}

/// The latest time at which a failure is due over these edges, where it is due over each of them, in a window that ends here
/// and has room for all. At the index of an edge its window may be known.
pub(crate) fn latest_due(
    site: &Site<'_>,
    edges: &[u32],
    hi: u64,
    known: &[Option<Window>],
) -> Option<u64>
    requires edges { All (λ edge. edge < length site.now.graph.now.edges) edges.now }
    requires known { AreKnown site.now.graph.now site.now.log.now site.now.horizon edges.now known.now }
    ensures value { result ≡ latest_within hi
        (dues_over site.now.graph.now site.now.log.now site.now.span site.now.horizon edges.now) }
    ensures within { IfSome result (λ latest. latest ≤ hi) }
{
    let mut latest: u64 = 0;
    for index in 0..edges.len() {
        let due = due_by_number(site, edges[index], known_at(known, index))?;
        if due.by > hi {
            return None;
        }
        latest = latest.max(due.by);
    }
    Some(latest)
}

/// The source becomes active too late for the failure to be due within a window that ends here.
pub(crate) fn starts_late(hi: u64, due: EdgeDue) -> Alternative
    requires due { IsSmallDue due }
    requires hi { hi ≤ MAX_TIME }
    ensures { constraints_in result ≡ starts_late hi (due_seen due) }
{
    Alternative::One(at_least(due.source, hi.saturating_sub(due.tmax) + 1))
}

/// The target becomes active at most the greatest delay after the source.
pub(crate) fn follows_in_time(due: EdgeDue) -> Alternative
    requires { IsSmallDue due }
    ensures { constraints_in result ≡ follows_in_time (due_seen due) }
{
    Alternative::One(at_most_after(due.target, due.source, due.tmax))
}

/// What is due over the edge, where its greatest delay is finite and it is active in the span. A window of the edge may be
/// known.
pub(crate) fn due_by_number(site: &Site<'_>, edge: u32, known: Option<Window>) -> Option<EdgeDue>
    requires edge { edge < length site.now.graph.now.edges }
    requires known { IfSome known (IsWindowOver site.now.graph.now site.now.log.now site.now.horizon edge) }
    ensures value { option_map due_seen result
        ≡ due_by_number site.now.graph.now site.now.log.now site.now.span site.now.horizon edge }
    ensures small { IfSome result IsSmallDue }
{
    let propagation = edge_of(site.graph, edge);
    let tmax = propagation.tmax?;
    let window = window_over(site, edge, known)?;
    Some(EdgeDue {
        source: propagation.source,
        target: propagation.target,
        tmax,
        by: window.lo + tmax,
    })
}

/// The window of the edge round the span of the site, where there is one.
pub(crate) fn find_window(site: &Site<'_>, edge: u32) -> Option<Window>
    requires { edge < length site.now.graph.now.edges }
    ensures value { result
        ≡ option_and_then (λ e. window_of site.now.log.now e site.now.span site.now.horizon)
        (slice_get site.now.graph.now.edges edge) }
    ensures small { IfSome result IsSmallWindow }
{
    site.log.is_always_ordered();
    site.log
        .window_of(site.graph, edge, site.span, site.horizon)
}

/// The joint window of the edges into the node round the span of the site, where there is one.
pub(crate) fn find_joint(site: &Site<'_>, node: u32) -> Option<Window>
    requires { node < length site.now.graph.now.nodes }
    ensures value { result
        ≡ joint_of site.now.graph.now site.now.log.now node site.now.span site.now.horizon }
    ensures small { IfSome result IsSmallWindow }
{
    site.log.is_always_ordered();
    site.log.joint_of(site.graph, node, site.span, site.horizon)
}
