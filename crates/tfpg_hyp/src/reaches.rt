//! What the hypotheses of a table reach, each by what a part of it reaches.

ghost use Rattle.std.specs.Prelude.{[], length, All, IfOk};
ghost use Rattle.tfpg_base.specs.Hypothesis.{Hypothesis};
ghost use Rattle.tfpg_base.specs.Set.{IsSubset};
ghost use Rattle.tfpg_graph.specs.Graph.{AreFailures};
ghost use Rattle.tfpg_graph.specs.Onward.{AreOnward};
ghost use Rattle.tfpg_graph.specs.Reach.{IsReach};
ghost use Rattle.tfpg_hyp.specs.Hypotheses.{AreReaches};

use std::alloc::Global;
use tfpg_base::{Hypothesis, MAX_MEMBERS, NoMemory, Set};
use tfpg_graph::{Graph, NodeSet, Onward};

/// What each of the hypotheses reaches. Those with the same failure modes that follow one another share the search. Any other set is
/// searched from what it reaches without its last member, and this is kept as long as it is a part of the sets that follow. So in a
/// table a set mostly costs the edges round the nodes that its last member adds, and a look at each failure mode.
pub(crate) fn reaches_of(
    alloc: Global,
    graph: &Graph,
    hypotheses: &[Hypothesis],
) -> Result<Vec<NodeSet>, NoMemory>
    requires { All (λ (hypothesis : Hypothesis). AreFailures graph.now hypothesis.set) hypotheses.now }
    ensures { IfOk result (λ reaches. AreReaches graph.now hypotheses.now reaches.items) }
{
    let onward = graph.onward(alloc)?;
    let none = graph.reach(Set::empty());
    let mut reaches = Vec::new(alloc);
    let mut part = Set::empty();
    let mut known = none;
    let mut set = Set::empty();
    let mut reach = none;
    for hypothesis in hypotheses {
        if hypothesis.set != set {
            set = hypothesis.set;
            let less = part_of(part, set);
            known = reach_of_part(graph, &onward, &none, part, &known, less);
            part = less;
            reach = grow(graph, &onward, less, &known, set);
        }
        reaches.push(reach)?;
    }
    Ok(reaches)
}

/// A part of the set: this one, if it is a proper part, and else the set without its last member.
fn part_of(part: Set, set: Set) -> Set
    ensures { IsSubset result set }
{
    if part.is_proper_part(set) {
        part
    } else {
        without_last(set)
    }
}

/// The set without its last member.
fn without_last(set: Set) -> Set
    ensures { IsSubset result set }
{
    let mut less = Set::empty();
    let mut so_far = Set::empty();
    for position in 0..MAX_MEMBERS {
        if set.has(position) {
            less = so_far;
            so_far = so_far.with(position);
        }
    }
    less
}

/// What the set reaches, which is known of this part and of the empty set.
fn reach_of_part(
    graph: &Graph,
    onward: &Onward,
    none: &NodeSet,
    part: Set,
    known: &NodeSet,
    set: Set,
) -> NodeSet
    requires onward { AreOnward (length graph.now.nodes) graph.now.edges onward.now }
    requires members { AreFailures graph.now set }
    requires none { IsReach graph.now [] none.now }
    requires known { IsReach graph.now part known.now }
    ensures { IsReach graph.now set result }
{
    if part == set {
        *known
    } else {
        grow(graph, onward, Set::empty(), none, set)
    }
}

/// What the set reaches, by what a part of it reaches: the members of the set are added one by one.
fn grow(graph: &Graph, onward: &Onward, part: Set, known: &NodeSet, set: Set) -> NodeSet
    requires onward { AreOnward (length graph.now.nodes) graph.now.edges onward.now }
    requires members { AreFailures graph.now set }
    requires part { IsSubset part set }
    requires known { IsReach graph.now part known.now }
    ensures { IsReach graph.now set result }
{
    graph.is_always_valid();
    let mut so_far = part;
    let mut reach = *known;
    for position in 0..graph.failure_count() {
        if set.has(position) {
            so_far = so_far.with(position);
            reach = graph.reach_with(onward, &reach, position);
        }
    }
    reach
}
