//! Cycles of edges that may take no time.

ghost use Rattle.std.specs.Prelude.{◌≡◌, ℕ, ◌<◌, ◌↔◌, length, All, IsTrue, IfOk, IfNone, IfSome};
ghost use Rattle.tfpg_graph.specs.Valid.{IsValidEdge};
ghost use Rattle.tfpg_graph.specs.Valid.{IsValidSoFar};
ghost use Rattle.tfpg_graph.specs.ZeroCycle.{LiesOnZeroCycle, HasZeroOrder};
ghost use Rattle.tfpg_graph.specs.inside.zero_cycle.ZeroEdges.{AreZeroGroups, StaysInGroup};

mod find_groups;
mod steps;

use crate::declared::Declared;
use crate::edge::Edge;
use crate::node_steps::NodeSteps;
use crate::zero_cycle::find_groups::groups;
use std::alloc::Global;
use tfpg_base::NoMemory;

/// The first edge that lies on a cycle of edges that may take no time.
///
/// An edge lies on such a cycle exactly where it may take no time and its ends lie in one group of nodes that reach
/// each other in no time. The groups are the strongly connected components of the edges that may take no time. Two
/// depth-first searches find them, the first along the reversed edges (the algorithm of Kosaraju), and then it goes
/// through the edges once. Takes time and memory in the numbers of nodes and edges, and no more stack for more of them.
pub(crate) fn first_on_zero_cycle(
    alloc: Global,
    declared: &Declared,
) -> Result<Option<u32>, NoMemory>
    requires { IsValidSoFar declared.now }
    ensures order { IfOk result (λ number. IfNone number (HasZeroOrder declared.now)) }
    ensures lies { IfOk result (λ number. IfSome number (LiesOnZeroCycle declared.now)) }
    ensures first { IfOk result
        (λ number. IfSome number (λ n. (earlier : ℕ) → earlier < n →
        LiesOnZeroCycle declared.now earlier → ⊥)) }
{
    let groups = zero_groups(alloc, declared)?;
    Ok(first_in_group(declared, &groups))
}

/// A mark for each node, so that nodes with one mark reach each other in no time.
fn zero_groups(alloc: Global, declared: &Declared) -> Result<Vec<Option<usize>>, NoMemory>
    requires { All (IsValidEdge declared.now) declared.now.edges }
    ensures { IfOk result (λ marks. AreZeroGroups declared.now marks.items) }
{
    let steps = NodeSteps::of_edges(alloc, declared, false)?;
    let reversed = NodeSteps::of_edges(alloc, declared, true)?;
    groups(alloc, declared.node_count(), &steps, &reversed)
}

/// The first edge that may take no time and has its ends in one group.
fn first_in_group(declared: &Declared, groups: &[Option<usize>]) -> Option<u32>
    requires valid { All (IsValidEdge declared.now) declared.now.edges }
    requires groups { AreZeroGroups declared.now groups.now }
    ensures order { IfNone result (HasZeroOrder declared.now) }
    ensures lies { IfSome result (LiesOnZeroCycle declared.now) }
    ensures first { IfSome result
        (λ n. (earlier : ℕ) → earlier < n → LiesOnZeroCycle declared.now earlier → ⊥) }
{
    for number in 0..declared.edge_count() {
        if stays_in_group(groups, declared.edge(number)) {
            return Some(number);
        }
    }
    None
}

/// Whether the edge may take no time and has its ends in one group.
fn stays_in_group(groups: &[Option<usize>], edge: Edge) -> bool
    requires source { edge.source < length groups.now }
    requires target { edge.target < length groups.now }
    ensures { IsTrue result ↔ StaysInGroup groups.now edge }
{
    edge.tmin == 0 && groups[edge.source as usize] == groups[edge.target as usize]
}
