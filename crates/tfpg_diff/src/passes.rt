//! Values before any pick is tested, after all of them are met, and after some of them are gone.

ghost use Rattle.std.specs.Prelude.{◌≡◌, ◌+◌, ◌≤◌, [], length, vec_len, vec_capacity, IfOk, OnOk, OnErr, slice_index};
ghost use Rattle.tfpg_diff.specs.Demands.{demands_of};
ghost use Rattle.tfpg_diff.specs.Solution.{HasSolution};
ghost use Rattle.tfpg_diff.specs.Cycle.{NamesNegativeCycle};
ghost use Rattle.tfpg_diff.specs.inside.Kept.{IsSound, AreKept, AreAtCeilings, AreMetFrom, MeetsPicks, Passes};
ghost use Rattle.tfpg_diff.specs.inside.Undone.{Remembers};
ghost use Rattle.tfpg_diff.specs.inside.Ready.{AreSized, CanTakeBack, TakesBack};

use crate::bounds::Bounds;
use crate::labels::Labels;
use crate::link::Link;
use crate::pick::Pick;
use crate::relax::relax;
use crate::why::{Conflict, Why};

/// Tests each pick once. Where none before `limit` is broken it stops there, since all from there on are met. Returns the
/// index of the last one that was broken.
///
/// Conflict comes where that closes a negative cycle, whose tags `cycle` then has.
fn pass(
    bounds: &[Bounds],
    picks: &[Pick],
    labels: &mut Labels,
    before: u32,
    limit: usize,
    cycle: &mut Vec<Why>,
) -> Result<Option<usize>, Conflict>
    requires sound { IsSound (demands_of bounds.now picks.now) }
    requires kept { AreKept (demands_of bounds.now picks.now) labels.old.values.items labels.old.links.items }
    requires met { AreMetFrom labels.old.values.items picks.now limit (length picks.now) }
    requires room { length bounds.now + 3 ≤ vec_capacity cycle.old }
    ensures kept { AreKept (demands_of bounds.now picks.now) labels.new.values.items labels.new.links.items }
    ensures passes { IfOk result
        (λ last. Passes picks.now (length picks.now) labels.old.values.items last labels.new.values.items) }
    ensures remembers { Remembers before labels.old labels.new }
    ensures cycle { OnErr result (NamesNegativeCycle (demands_of bounds.now picks.now) cycle.new.items) }
    ensures no_cycle { OnOk result (cycle.new.items ≡ cycle.old.items) }
    ensures capacity { vec_capacity cycle.old ≤ vec_capacity cycle.new }
{
    let mut last = None;
    for index in 0..picks.len() {
        if index >= limit && last.is_none() {
            return Ok(None);
        }
        if relax(bounds, picks, index, labels, before, cycle)? {
            last = Some(index);
        }
    }
    Ok(last)
}

/// Tests the picks after the first so many, which the call added.
///
/// Conflict comes where that closes a negative cycle, whose tags `cycle` then has.
fn relax_added(
    bounds: &[Bounds],
    picks: &[Pick],
    labels: &mut Labels,
    before: u32,
    cycle: &mut Vec<Why>,
) -> Result<(), Conflict>
    requires sound { IsSound (demands_of bounds.now picks.now) }
    requires kept { AreKept (demands_of bounds.now picks.now) labels.old.values.items labels.old.links.items }
    requires room { length bounds.now + 3 ≤ vec_capacity cycle.old }
    ensures kept { AreKept (demands_of bounds.now picks.now) labels.new.values.items labels.new.links.items }
    ensures remembers { Remembers before labels.old labels.new }
    ensures cycle { OnErr result (NamesNegativeCycle (demands_of bounds.now picks.now) cycle.new.items) }
    ensures no_cycle { OnOk result (cycle.new.items ≡ cycle.old.items) }
    ensures capacity { vec_capacity cycle.old ≤ vec_capacity cycle.new }
{
    for index in before as usize..picks.len() {
        relax(bounds, picks, index, labels, before, cycle)?;
    }
    Ok(())
}

/// Lowers values until they meet every pick, beginning with the picks that the call added: those after the first so many, which
/// there were before it. The trail saves what the values were.
///
/// Conflict comes where there is no solution; `cycle` then has the tags of a negative cycle. There are at most as many
/// passes over the picks as there are variables, and one more. (This count is not proved.)
pub(crate) fn lower_until_met(
    bounds: &[Bounds],
    picks: &[Pick],
    labels: &mut Labels,
    before: u32,
    cycle: &mut Vec<Why>,
) -> Result<(), Conflict>
    requires sound { IsSound (demands_of bounds.now picks.now) }
    requires kept { AreKept (demands_of bounds.now picks.now) labels.old.values.items labels.old.links.items }
    requires room { length bounds.now + 3 ≤ vec_capacity cycle.old }
    ensures kept { AreKept (demands_of bounds.now picks.now) labels.new.values.items labels.new.links.items }
    ensures met { OnOk result (MeetsPicks labels.new.values.items picks.now) }
    ensures remembers { Remembers before labels.old labels.new }
    ensures cycle { OnErr result (NamesNegativeCycle (demands_of bounds.now picks.now) cycle.new.items) }
    ensures no_cycle { OnOk result (cycle.new.items ≡ cycle.old.items) }
    ensures capacity { vec_capacity cycle.old ≤ vec_capacity cycle.new }
{
    relax_added(bounds, picks, labels, before, cycle)?;
    let mut limit = picks.len();
    while let Some(last) = pass(bounds, picks, labels, before, limit, cycle)? {
        limit = last + 1;
    }
    Ok(())
}

/// Gives each variable the value of its upper bound, and that bound as its link.
pub(crate) fn start(bounds: &[Bounds], labels: &mut Labels)
    requires values { vec_len labels.old.values ≡ length bounds.now + 1 }
    requires links { vec_len labels.old.links ≡ length bounds.now + 1 }
    requires zero { slice_index labels.old.values.items 0 ≡ 0 }
    ensures ceilings { AreAtCeilings bounds.now labels.new.values.items labels.new.links.items (length bounds.now) }
    ensures trail { labels.new.trail ≡ labels.old.trail }
{
    for variable in 0..bounds.len() {
        labels.values[variable + 1] = bounds[variable].ceiling();
        labels.links[variable + 1] = Link::Ceiling;
    }
}

/// Computes the latest solution afresh, from the upper bounds down. The trail then reaches back no further.
fn compute_afresh(bounds: &[Bounds], picks: &[Pick], labels: &mut Labels, cycle: &mut Vec<Why>)
    requires sound { IsSound (demands_of bounds.now picks.now) }
    requires solvable { HasSolution (demands_of bounds.now picks.now) }
    requires sized { AreSized (demands_of bounds.now picks.now) labels.old }
    requires room { length bounds.now + 3 ≤ vec_capacity cycle.old }
    ensures kept { AreKept (demands_of bounds.now picks.now) labels.new.values.items labels.new.links.items }
    ensures met { MeetsPicks labels.new.values.items picks.now }
    ensures saved { labels.new.trail.saved.items ≡ [] }
    ensures reach { labels.new.trail.reach ≡ length picks.now }
    ensures cycle { cycle.new.items ≡ cycle.old.items }
    ensures capacity { vec_capacity cycle.old ≤ vec_capacity cycle.new }
{
    let count = picks.len();
    labels.trail.restart(count as u64 + 1);
    start(bounds, labels);
    match lower_until_met(bounds, picks, labels, count as u32, cycle) {
        Ok(()) => labels.trail.restart(count as u64),
        Err(Conflict) => unreachable!(),
    }
}

/// Brings labels back to the latest solution of fewer demands, which has one: the trail takes back what was lowered since there
/// were so many picks, and where it does not reach that far the solution is computed afresh.
pub(crate) fn take_back(
    bounds: &[Bounds],
    picks: &[Pick],
    labels: &mut Labels,
    cycle: &mut Vec<Why>,
)
    requires sound { IsSound (demands_of bounds.now picks.now) }
    requires able { CanTakeBack (demands_of bounds.now picks.now) labels.old }
    requires room { length bounds.now + 3 ≤ vec_capacity cycle.old }
    ensures taken { TakesBack (demands_of bounds.now picks.now) labels.old labels.new }
    ensures cycle { cycle.new.items ≡ cycle.old.items }
    ensures capacity { vec_capacity cycle.old ≤ vec_capacity cycle.new }
{
    let count = picks.len() as u32;
    if labels.trail.reach <= u64::from(count) {
        labels.undo_to(count);
        return;
    }
    compute_afresh(bounds, picks, labels, cycle);
}
