//! How the hypotheses are listed in order: size by size, and those of one size by their rising lists.

ghost use Rattle.std.specs.Prelude.{◌≡◌, ◌+◌, ◌<◌, ◌≤◌, ◌++◌, map, drop, length, IfOk, OnOk};
ghost use Rattle.std.specs.List.{flat_map};
ghost use Rattle.tfpg_base.specs.Set.{IsSet};
ghost use Rattle.tfpg_base.specs.NodeSet.{IsNodeSet};
ghost use Rattle.tfpg_base.specs.declared.limits.TheConstants.{MAX_DOUBT};
ghost use Rattle.tfpg_graph.specs.declared.limits.TheConstants.{MAX_FAILURES};
ghost use Rattle.tfpg_hyp.specs.inside.Choices.{chosen_below};
ghost use Rattle.tfpg_hyp.specs.inside.Larger.{next_after, with_position, with_doubt, positions_after, monitors_after, larger};

use std::alloc::Global;
use tfpg_base::{Doubts, Hypothesis, NoMemory, Set};

/// The hypotheses of at most `k` members, which are positions below `count` and monitors, at most `doubt` of them monitors.
pub(crate) fn list_hypotheses(
    alloc: Global,
    count: u32,
    monitors: &[u32],
    k: u32,
    doubt: u32,
) -> Result<Vec<Hypothesis>, NoMemory>
    requires few_failures { count ≤ MAX_FAILURES }
    requires few_doubts { doubt ≤ MAX_DOUBT }
    requires monitors { IsNodeSet monitors.now }
    ensures { IfOk result (λ list. list.items ≡ chosen_below monitors.now doubt count (k + 1)) }
{
    let mut list = Vec::new(alloc);
    list.push(Hypothesis::believing(Set::empty()))?;
    let mut first = 0;
    let sizes = k.min(count + doubt);
    for _size in 0..sizes {
        let next = list.len();
        append_next_size(&mut list, first, count, monitors, doubt)?;
        first = next;
    }
    Ok(list)
}

/// Appends, for each hypothesis from the index `first` on, those that have one member more.
fn append_next_size(
    list: &mut Vec<Hypothesis>,
    first: usize,
    count: u32,
    monitors: &[u32],
    doubt: u32,
) -> Result<(), NoMemory>
    requires few_failures { count ≤ MAX_FAILURES }
    requires monitors { IsNodeSet monitors.now }
    requires first { first ≤ length list.old.items }
    ensures { OnOk result
        (list.new.items ≡ list.old.items ++ flat_map (larger monitors.now doubt count 0) (drop first list.old.items)) }
{
    let end = list.len();
    for number in first..end {
        let hypothesis = list[number];
        append_larger(list, hypothesis, count, monitors, doubt)?;
    }
    Ok(())
}

/// Appends the hypotheses that have one member more, which comes after those of this one.
fn append_larger(
    list: &mut Vec<Hypothesis>,
    hypothesis: Hypothesis,
    count: u32,
    monitors: &[u32],
    doubt: u32,
) -> Result<(), NoMemory>
    requires few_failures { count ≤ MAX_FAILURES }
    requires monitors { IsNodeSet monitors.now }
    ensures { OnOk result (list.new.items ≡ list.old.items ++ larger monitors.now doubt count 0 hypothesis) }
{
    append_positions(list, hypothesis, count)?;
    append_doubts(list, hypothesis, monitors, doubt)
}

/// Appends those with one failure mode more. After a doubt none comes.
fn append_positions(
    list: &mut Vec<Hypothesis>,
    hypothesis: Hypothesis,
    count: u32,
) -> Result<(), NoMemory>
    requires few_failures { count ≤ MAX_FAILURES }
    ensures { OnOk result
        (list.new.items ≡ list.old.items ++ map (with_position hypothesis) (positions_after count 0 hypothesis)) }
{
    if !hypothesis.doubts.is_empty() {
        return Ok(());
    }
    for position in next_position(hypothesis.set)..count {
        list.push(Hypothesis {
            set: hypothesis.set.with(position),
            doubts: hypothesis.doubts,
        })?;
    }
    Ok(())
}

/// The first position after these failure modes.
fn next_position(set: Set) -> u32
    ensures next { result ≡ next_after 0 set }
    ensures set { IsSet set }
{
    let _size = set.len();
    let mut next = 0;
    let mut left = set;
    while let Some(parts) = left.split_first() {
        next = parts.0 + 1;
        left = parts.1;
    }
    next
}

/// Appends those with the doubt in one monitor more, where it may be one more.
fn append_doubts(
    list: &mut Vec<Hypothesis>,
    hypothesis: Hypothesis,
    monitors: &[u32],
    doubt: u32,
) -> Result<(), NoMemory>
    requires monitors { IsNodeSet monitors.now }
    ensures { OnOk result
        (list.new.items ≡ list.old.items ++ map (with_doubt hypothesis) (monitors_after monitors.now doubt hypothesis)) }
{
    if hypothesis.doubts.len() >= doubt {
        return Ok(());
    }
    let least = next_node(hypothesis.doubts);
    for node in monitors {
        if *node >= least {
            list.push(hypothesis.doubting(*node))?;
        }
    }
    Ok(())
}

/// The first node after those of these monitors.
fn next_node(doubts: Doubts) -> u32
    requires { IsNodeSet doubts }
    ensures { result ≡ next_after 0 doubts }
{
    let mut next = 0;
    let mut left = doubts;
    while let Some(parts) = left.split_first() {
        next = parts.0 + 1;
        left = parts.1;
    }
    next
}
