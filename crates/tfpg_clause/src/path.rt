//! The path to the present leaf of a partial tree, as a program keeps it.

ghost use Rattle.std.specs.Prelude.{◌≡◌, ℕ, ◌≤◌, ◌<◌, ◌-◌, ◌↔◌, IsTrue, take, length, vec_len, vec_capacity, option_map, [], ◌∷◌, Some, None};
ghost use Rattle.std.specs.Bool.{MatchBool};
ghost use Rattle.tfpg_log.specs.Log.{IsLogOf};
ghost use Rattle.tfpg_evidence.specs.declared.reason.Reason.TheVariants.{Pick};
ghost use Rattle.tfpg_clause.specs.Clauses.{count_of};
ghost use Rattle.tfpg_clause.specs.Case.{case_of};
ghost use Rattle.tfpg_clause.specs.Trees.{picked, stated};
ghost use Rattle.tfpg_clause.specs.Paths.{chosen_on, new_split, cited_by, next_leaf, above_last, IsMarkedReusable};
ghost use Rattle.tfpg_clause.specs.inside.MarkedTrees.{picked_on};
ghost use Rattle.tfpg_clause.specs.inside.UnfinishedSplits.{HasNext};

use crate::clauses::{constraint, count};
use crate::facts::fact;
use tfpg_base::Constraint;
use tfpg_evidence::{ClauseName, Reason};
use tfpg_graph::{Graph, NodeSet};
use tfpg_log::Log;

/// A split on a path, with the number of the alternative in whose subtree one stands, counted from 1, and how many
/// alternatives it has. It is cited where some cycle in that subtree picks from it, so far. It is reusable where there is
/// an alternative before, in whose subtree no cycle picks from it.
#[derive(Clone, Copy, PartialEq, Eq, Drop)]
pub struct PathSplit {
    pub name: ClauseName,
    pub alternative: u32,
    pub alternatives: u32,
    pub cited: bool,
    pub reusable: bool,
}

impl PathSplit {
    /// A new split on a clause, in its first alternative, or None where the name is not allowed. The cost is that of
    /// [`count`].
    pub fn on_clause(graph: &Graph, log: &Log, name: ClauseName) -> Option<PathSplit>
        ensures { result ≡ option_map (new_split name) (count_of graph.now log.now name) }
    {
        let alternatives = count(graph, log, name).ok()?;
        Some(PathSplit {
            name,
            alternative: 1,
            alternatives,
            cited: false,
            reusable: false,
        })
    }
}

/// Backtracks from a closed leaf (chronological backtracking): moves the path to the next alternative of the deepest split
/// that has one left, and returns whether there is one. Where none has, the tree is finished, and the path is empty. Takes
/// no memory, and goes through the splits that it drops.
pub fn backtrack(path: &mut Vec<PathSplit>) -> bool
    ensures moved { MatchBool result
        (next_leaf path.old.items ≡ Some path.new.items)
        ((next_leaf path.old.items ≡ None) × (path.new.items ≡ [])) }
    ensures shorter { vec_len path.new ≤ vec_len path.old }
    ensures capacity { vec_capacity path.new ≡ vec_capacity path.old }
{
    let kept = unfinished(path);
    path.truncate(kept);
    if kept == 0 {
        return false;
    }
    let deepest = &mut path[kept - 1];
    // It is read so that the proof knows that it fits.
    let _alternatives = deepest.alternatives;
    deepest.alternative += 1;
    deepest.reusable = !deepest.cited;
    deepest.cited = false;
    true
}

/// Whether the subtree of the alternative before is reusable at the leaf of this path.
pub fn is_reusable(path: &[PathSplit]) -> bool
    ensures { IsTrue result ↔ IsMarkedReusable path.now }
{
    match path.last() {
        Some(deepest) => deepest.reusable,
        None => false,
    }
}

/// Backtracks from a leaf at which a subtree is reused: drops the deepest split, whose alternatives are all closed, and
/// then moves the path as [`backtrack`] does, and with the same result.
pub fn reuse(path: &mut Vec<PathSplit>) -> bool
    ensures moved { MatchBool result
        (next_leaf (above_last path.old.items) ≡ Some path.new.items)
        ((next_leaf (above_last path.old.items) ≡ None) × (path.new.items ≡ [])) }
    ensures shorter { vec_len path.new ≤ vec_len path.old }
    ensures capacity { vec_capacity path.new ≡ vec_capacity path.old }
{
    let _deepest = path.pop();
    backtrack(path)
}

/// Marks the splits of the path that the reasons cite.
pub fn cite(path: &mut Vec<PathSplit>, reasons: &[Reason])
    ensures marked { path.new.items ≡ cited_by reasons.now path.old.items }
    ensures length { vec_len path.new ≡ vec_len path.old }
    ensures capacity { vec_capacity path.new ≡ vec_capacity path.old }
{
    cite_each(path, reasons);
}

/// Marks the splits that each of the reasons cites.
fn cite_each(path: &mut [PathSplit], reasons: &[Reason])
    ensures { path.new ≡ cited_by reasons.now path.old }
{
    for reason in reasons {
        cite_one(path, *reason);
    }
}

/// Marks the split of the path that the reason cites, where it is a pick.
fn cite_one(path: &mut [PathSplit], reason: Reason)
    ensures { path.new ≡ cited_by (reason ∷ []) path.old }
{
    match reason {
        Reason::Pick { split, .. } => cite_split(path, split),
        _ => {}
    }
}

/// Marks the split of this number, where there is one. They are numbered from 1.
fn cite_split(path: &mut [PathSplit], number: u64)
    ensures { (place : ℕ) → path.new ≡ cited_by (Pick number place ∷ []) path.old }
{
    if number == 0 || number > path.len() as u64 {
        return;
    }
    path[(number - 1) as usize].cited = true;
}

/// How many splits there are up to the deepest that has an alternative left.
fn unfinished(path: &[PathSplit]) -> usize
    ensures within { result ≤ length path.now }
    ensures same { next_leaf path.now ≡ next_leaf (take result path.now) }
    ensures left { HasNext path.now result }
{
    let mut kept = path.len();
    while kept > 0 && path[kept - 1].alternative >= path[kept - 1].alternatives {
        kept -= 1;
    }
    kept
}

/// The constraint that the reason states at the leaf of this path, where it states one: a fact of the log and of a set that
/// reaches these nodes, or a constraint of an alternative on the path. The cost is that of [`fact`] or [`constraint`].
pub fn stated(
    graph: &Graph,
    log: &Log,
    reach: &NodeSet,
    path: &[PathSplit],
    reason: Reason,
) -> Option<Constraint>
    requires of { IsLogOf graph.now log.now }
    ensures { result ≡ stated (case_of graph.now log.now reach.now) (chosen_on path.now) reason }
{
    match reason {
        Reason::Pick { split, place } => picked(graph, log, path, split, place),
        _ => fact(graph, log, reach, reason).ok(),
    }
}

/// The constraint with this number in the alternative taken at this split of the path, both numbered from 1, or None where
/// there is none.
/// The cost is that of [`constraint`].
pub fn picked(
    graph: &Graph,
    log: &Log,
    path: &[PathSplit],
    split: u64,
    number: u32,
) -> Option<Constraint>
    ensures { result ≡ picked graph.now log.now (chosen_on path.now) split number }
{
    picked_on(graph, log, path, split, number)
}

/// The same, by the splits of the path.
fn picked_on(
    graph: &Graph,
    log: &Log,
    path: &[PathSplit],
    split: u64,
    number: u32,
) -> Option<Constraint>
    ensures { result ≡ picked_on graph.now log.now path.now split number }
{
    if split == 0 {
        return None;
    }
    let taken = path.get((split - 1) as usize).copied()?;
    match constraint(graph, log, taken.name, taken.alternative, number) {
        Ok(found) => found,
        Err(_) => None,
    }
}
