//! From when on a node is overdue: the failure has been due by some edges, and the node becomes active later.
//!
//! In a window that ends before, the times are excused from a must clause. So no span of it is looked at.

ghost use Rattle.std.specs.Prelude.{◌<◌, ◌≤◌, length, All};
ghost use Rattle.tfpg_base.specs.declared.limits.TheConstants.{NEVER};
ghost use Rattle.tfpg_clause.specs.inside.Overdue.{AreExcusedBefore, IsExcusedOver, IsExcusedBySome};

use crate::may::edge_of;
use crate::meets::time_of;
use tfpg_graph::Graph;

/// The instant from which on the node is overdue by each of these edges into it, and none where it never is by one of them.
/// Without edges that is 0.
pub(crate) fn overdue_from(graph: &Graph, times: &[u64], edges: &[u32]) -> Option<u64>
    requires edges { All (λ edge. edge < length graph.now.edges) edges.now }
    requires in_range { All (λ time. time ≤ NEVER) times.now }
    ensures { AreExcusedBefore (IsExcusedBySome graph.now times.now edges.now) result }
{
    let mut latest: u64 = 0;
    for edge in edges {
        let overdue = overdue_over(graph, times, *edge)?;
        latest = latest.max(overdue);
    }
    Some(latest)
}

/// The instant from which on the target of the edge is overdue: that at which its source has been active for the greatest
/// delay. There is none where the greatest delay is infinite, or where the target follows the source in time.
fn overdue_over(graph: &Graph, times: &[u64], edge: u32) -> Option<u64>
    requires edge { edge < length graph.now.edges }
    requires in_range { All (λ time. time ≤ NEVER) times.now }
    ensures { AreExcusedBefore (IsExcusedOver graph.now times.now edge) result }
{
    let propagation = edge_of(graph, edge);
    let tmax = propagation.tmax?;
    let overdue = time_of(times, propagation.source) + tmax;
    if time_of(times, propagation.target) <= overdue {
        return None;
    }
    Some(overdue)
}
