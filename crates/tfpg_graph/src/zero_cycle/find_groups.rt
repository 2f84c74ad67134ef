//! The groups of nodes that reach each other, which are the strongly connected components, by two depth-first searches.

ghost use Rattle.std.specs.Prelude.{◌≡◌, ◌<◌, ℕ, List, [], ◌∷◌, ◌++◌, None, length, replicate, IfOk, OnOk};
ghost use Rattle.tfpg_graph.specs.inside.zero_cycle.SearchFrames.{IsUnderway, IsSearching, all_turns_left};
ghost use Rattle.tfpg_graph.specs.inside.zero_cycle.ZeroSearch.{IsVisited, Searched, search_of, HasVisited, IsFinishingOrder, AreReversed, AreGroups};

use crate::node_steps::NodeSteps;
use std::alloc::Global;
use tfpg_base::NoMemory;

/// What a search has found so far.
#[derive(Drop)]
struct GroupSearch {
    /// For each node its mark, where the search has come to it.
    marks: Vec<Option<usize>>,
    /// The nodes that the search is done with, in the order in which it was done with them.
    order: Vec<u32>,
}

impl GroupSearch {
    /// The search has not begun.
    fn new(alloc: Global, count: u32) -> Result<GroupSearch, NoMemory>
        ensures marks { IfOk result (λ search. search.marks.items ≡ replicate count None) }
        ensures order { IfOk result (λ search. search.order.items ≡ []) }
    {
        Ok(GroupSearch {
            marks: vec![in alloc; None; count as usize]?,
            order: Vec::new(alloc),
        })
    }
}

/// A node that a search has come to and is not done with.
#[derive(Clone, Copy)]
struct Frame {
    node: u32,
    /// How many nodes of its row, the first ones, the search is done with.
    passed: usize,
}

/// Searches depth-first: gives a mark to the node and all that it reaches over nodes without one, and is done with each of
/// these when it is done with those that it reaches.
///
/// This is the search of Hopcroft and Tarjan, with a list in place of calls of itself: its frames are the nodes on the path
/// to where the search is, each with its place in its row. So its stack does not grow with the graph. Takes time linear in
/// the number of nodes that get the mark and of steps from them, and memory for a frame for each node of that path.
fn visit(
    alloc: Global,
    steps: &NodeSteps,
    node: u32,
    mark: usize,
    search: &mut GroupSearch,
) -> Result<(), NoMemory>
    requires node { node < length steps.now }
    requires count { length search.old.marks.items ≡ length steps.now }
    requires searched { IsVisited steps.now search.old.marks.items search.old.order.items }
    ensures { OnOk result
        (HasVisited steps.now node mark (search_of search.old.marks.items search.old.order.items)
        (search_of search.new.marks.items search.new.order.items)) }
{
    if search.marks[node as usize].is_some() {
        return Ok(());
    }
    search.marks[node as usize] = Some(mark);
    let mut frames = Vec::new(alloc);
    frames.push(Frame { node, passed: 0 })?;
    while let Some(top) = frames.pop() {
        go_on(steps, mark, top, &mut frames, search)?;
    }
    Ok(())
}

/// One turn of a search: goes on from the last of its frames, which was taken from the list. It is done with the node, or
/// passes the next node of its row, or comes to this.
fn go_on(
    steps: &NodeSteps,
    mark: usize,
    top: Frame,
    frames: &mut Vec<Frame>,
    search: &mut GroupSearch,
) -> Result<(), NoMemory>
    requires { (middle : Searched) × IsUnderway steps.now mark top.node top.passed middle (search_of search.old.marks.items search.old.order.items) }
    ensures searching { OnOk result ((nodes : List ℕ) (old : Searched)
        → IsSearching steps.now mark nodes old (search_of search.old.marks.items search.old.order.items) (frames.old.items ++ top ∷ [])
        → IsSearching steps.now mark nodes old (search_of search.new.marks.items search.new.order.items) frames.new.items) }
    ensures ends { OnOk result
        (all_turns_left steps.now search.new.marks.items frames.new.items
        < all_turns_left steps.now search.old.marks.items (frames.old.items ++ top ∷ [])) }
{
    let row = steps.row(top.node);
    if top.passed == row.len() {
        search.order.push(top.node)?;
        return Ok(());
    }
    let next = row[top.passed];
    if search.marks[next as usize].is_some() {
        frames.push(Frame {
            node: top.node,
            passed: top.passed + 1,
        })?;
        return Ok(());
    }
    search.marks[next as usize] = Some(mark);
    frames.push(top)?;
    frames.push(Frame {
        node: next,
        passed: 0,
    })?;
    Ok(())
}

/// The nodes in the order in which searches from each of them are done with them.
fn finishing_order(alloc: Global, count: u32, steps: &NodeSteps) -> Result<Vec<u32>, NoMemory>
    requires { count ≡ length steps.now }
    ensures { IfOk result (λ order. IsFinishingOrder steps.now order.items) }
{
    let mut search = GroupSearch::new(alloc, count)?;
    for node in 0..count {
        visit(alloc, steps, node, 0, &mut search)?;
    }
    let GroupSearch {
        marks: _marks,
        order,
    } = search;
    Ok(order)
}

/// A mark for each node, so that nodes with one mark reach each other and no step goes to a lesser mark.
///
/// The first search goes along the reversed steps. The second takes the nodes from last to first in the order of the
/// first, and gives each group the index of its first node in that order (the algorithm of Kosaraju). Takes time linear in the
/// number of nodes and steps, and memory for a mark, an index and a frame for each node.
pub(crate) fn groups(
    alloc: Global,
    count: u32,
    steps: &NodeSteps,
    reversed: &NodeSteps,
) -> Result<Vec<Option<usize>>, NoMemory>
    requires count { count ≡ length steps.now }
    requires reversed { AreReversed steps.now reversed.now }
    ensures { IfOk result (λ marks. AreGroups steps.now marks.items) }
{
    let order = finishing_order(alloc, count, reversed)?;
    let mut search = GroupSearch::new(alloc, count)?;
    for turn in 0..order.len() {
        let index = order.len() - 1 - turn;
        visit(alloc, steps, order[index], index, &mut search)?;
    }
    let GroupSearch {
        marks,
        order: _order,
    } = search;
    Ok(marks)
}
