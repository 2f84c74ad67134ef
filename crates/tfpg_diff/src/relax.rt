//! One test of one constraint, and what follows where the values break it.

ghost use Rattle.std.specs.Prelude.{◌≡◌, ◌^◌, ◌+◌, ◌<◌, ◌≤◌, pos, ◌+ℤ◌, ◌≤ℤ◌, ◌<ℤ◌, [], ◌∷◌, ◌++◌, length, vec_len, vec_capacity, IsTrue, IfOk, OnOk, OnErr, IfSome, IsNone, if◌then◌else◌, slice_index, slice_get, All, Some, false, true};
ghost use Rattle.tfpg_diff.specs.Demands.{demands_of};
ghost use Rattle.tfpg_diff.specs.Cycle.{NamesNegativeCycle};
ghost use Rattle.tfpg_base.specs.declared.limits.TheConstants.{NEVER};
ghost use Rattle.tfpg_diff.specs.inside.Linked.{demands_linked};
ghost use Rattle.tfpg_diff.specs.inside.Kept.{IsMetBy, Walked, IsSound, AreKept, IsBrokenBy, Relaxes, allowed_by};
ghost use Rattle.tfpg_diff.specs.inside.Undone.{Remembers};

use crate::bounds::Bounds;
use crate::demand::{Demand, demand_of_pick};
use crate::labels::Labels;
use crate::link::Link;
use crate::pick::Pick;
use crate::walk::{leads_to, push_tag, walk};
use crate::why::{Conflict, Why};
use tfpg_base::Constraint;

/// Whether the values break the constraint. No difference of two values overflows, whatever the bound is.
pub(crate) fn is_broken(values: &[u64], demand: Demand) -> bool
    requires left { demand.constraint.left < length values.now }
    requires right { demand.constraint.right < length values.now }
    requires small { All (λ value. value ≤ NEVER) values.now }
    ensures met { result ≡ false → IsMetBy values.now demand }
    ensures broken { result ≡ true → IsBrokenBy values.now demand }
{
    let left = values[demand.constraint.left as usize] as i64;
    let right = values[demand.constraint.right as usize] as i64;
    left - right > demand.constraint.most
}

/// The greatest value that a broken constraint allows its left side, where that is not below a floor.
pub(crate) fn allowed(values: &[u64], demand: Demand, floor: u64) -> Option<u64>
    requires left { demand.constraint.left < length values.now }
    requires right { demand.constraint.right < length values.now }
    requires small { All (λ value. value ≤ NEVER) values.now }
    requires low { floor ≤ NEVER }
    requires broken { IsBrokenBy values.now demand }
    ensures below { IsNone result → allowed_by values.now demand <ℤ pos floor }
    ensures value { IfSome result (λ value. pos value ≡ allowed_by values.now demand) }
    ensures above { IfSome result (λ value. floor ≤ value) }
{
    let value = values[demand.constraint.right as usize] as i64 + demand.constraint.most;
    if value < floor as i64 {
        return None;
    }
    Some(value as u64)
}

/// Begins a cycle with the tag of a constraint, and walks from its right side up to its left side or to zero.
/// Returns whether the walk ended at the left side.
pub(crate) fn begin_cycle(
    bounds: &[Bounds],
    picks: &[Pick],
    labels: &Labels,
    right: u32,
    left: u32,
    why: Why,
    cycle: &mut Vec<Why>,
) -> bool
    requires sound { IsSound (demands_of bounds.now picks.now) }
    requires kept { AreKept (demands_of bounds.now picks.now) labels.now.values.items labels.now.links.items }
    requires right { right ≤ length bounds.now }
    requires room { length bounds.now + 2 ≤ vec_capacity cycle.old }
    ensures walked { Walked (demands_linked (demands_of bounds.now picks.now) labels.now.links.items) right left
        (if result then left else 0) (why ∷ []) cycle.new.items }
    ensures found { left ≡ 0 → IsTrue result }
    ensures capacity { vec_capacity cycle.old ≤ vec_capacity cycle.new }
{
    cycle.clear();
    push_tag(cycle, why);
    walk(bounds, picks, labels, right, left, cycle)
}

/// Tests one pick, and where the values break it lowers the value of its left side, as there were so many picks before the
/// call. Returns whether it did.
///
/// Conflict comes where that closes a negative cycle, whose tags `cycle` then has. Where the pick is broken it costs a
/// walk along the links.
#[inline(always)]
pub(crate) fn relax(
    bounds: &[Bounds],
    picks: &[Pick],
    index: usize,
    labels: &mut Labels,
    before: u32,
    cycle: &mut Vec<Why>,
) -> Result<bool, Conflict>
    requires index { index < length picks.now }
    requires sound { IsSound (demands_of bounds.now picks.now) }
    requires kept { AreKept (demands_of bounds.now picks.now) labels.old.values.items labels.old.links.items }
    requires room { length bounds.now + 3 ≤ vec_capacity cycle.old }
    ensures kept { AreKept (demands_of bounds.now picks.now) labels.new.values.items labels.new.links.items }
    ensures relaxes { IfOk result
        (λ lowered. Relaxes picks.now index labels.old.values.items lowered labels.new.values.items) }
    ensures remembers { Remembers before labels.old labels.new }
    ensures cycle { OnErr result (NamesNegativeCycle (demands_of bounds.now picks.now) cycle.new.items) }
    ensures no_cycle { OnOk result (cycle.new.items ≡ cycle.old.items) }
    ensures capacity { vec_capacity cycle.old ≤ vec_capacity cycle.new }
{
    let demand = demand_of_pick(&picks[index]);
    if !is_broken(&labels.values, demand) {
        return Ok(false);
    }
    let Constraint { left, right, .. } = demand.constraint;
    if leads_to(bounds, picks, labels, right, left) {
        begin_cycle(bounds, picks, labels, right, left, demand.why, cycle);
        return Err(Conflict);
    }
    let limits = bounds[left as usize - 1];
    let Some(value) = allowed(&labels.values, demand, limits.floor()) else {
        begin_cycle(bounds, picks, labels, right, left, demand.why, cycle);
        push_tag(cycle, limits.floor_why());
        return Err(Conflict);
    };
    labels.lower(left, value, Link::Picked(index as u32), before);
    Ok(true)
}
