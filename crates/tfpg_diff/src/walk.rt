//! The walk along the links of a system, from a number towards zero.

ghost use Rattle.std.specs.Prelude.{◌≡◌, ◌+◌, ◌<◌, ◌≤◌, [], ◌∷◌, ◌++◌, length, vec_len, vec_capacity, IsTrue, if◌then◌else◌};
ghost use Rattle.tfpg_diff.specs.Demands.{demands_of};
ghost use Rattle.tfpg_diff.specs.inside.Linked.{demands_linked};
ghost use Rattle.tfpg_diff.specs.inside.Kept.{IsSound, AreKept, LeadsTo, Walked};

use crate::bounds::Bounds;
use crate::labels::Labels;
use crate::link::demand_of_link;
use crate::pick::Pick;
use crate::why::Why;

/// Appends a tag, for which there is room.
pub(crate) fn push_tag(cycle: &mut Vec<Why>, why: Why)
    requires { vec_len cycle.old < vec_capacity cycle.old }
    ensures items { cycle.new.items ≡ cycle.old.items ++ why ∷ [] }
    ensures capacity { vec_capacity cycle.old ≤ vec_capacity cycle.new }
{
    let _ = cycle.push(why);
}

/// Whether the links lead from a number to the one that is sought. The walk ends there or at zero, whichever comes first.
pub(crate) fn leads_to(
    bounds: &[Bounds],
    picks: &[Pick],
    labels: &Labels,
    from: u32,
    sought: u32,
) -> bool
    requires sound { IsSound (demands_of bounds.now picks.now) }
    requires kept { AreKept (demands_of bounds.now picks.now) labels.now.values.items labels.now.links.items }
    requires start { from ≤ length bounds.now }
    ensures leads { LeadsTo (demands_linked (demands_of bounds.now picks.now) labels.now.links.items) from sought
        (if result then sought else 0) }
    ensures found { sought ≡ 0 → IsTrue result }
{
    let mut stands = from;
    while stands != sought {
        if stands == 0 {
            return false;
        }
        let link = labels.links[stands as usize];
        stands = demand_of_link(bounds, picks, stands, link).constraint.right;
    }
    true
}

/// Walks along the links from a number up to the one that is sought or to zero, whichever comes first, and
/// appends the tags of the links on the way. Returns whether the walk ended at the one that is sought.
pub(crate) fn walk(
    bounds: &[Bounds],
    picks: &[Pick],
    labels: &Labels,
    from: u32,
    sought: u32,
    cycle: &mut Vec<Why>,
) -> bool
    requires sound { IsSound (demands_of bounds.now picks.now) }
    requires kept { AreKept (demands_of bounds.now picks.now) labels.now.values.items labels.now.links.items }
    requires start { from ≤ length bounds.now }
    requires room { vec_len cycle.old + length bounds.now + 1 ≤ vec_capacity cycle.old }
    ensures walked { Walked (demands_linked (demands_of bounds.now picks.now) labels.now.links.items) from sought
        (if result then sought else 0) cycle.old.items cycle.new.items }
    ensures found { sought ≡ 0 → IsTrue result }
    ensures capacity { vec_capacity cycle.old ≤ vec_capacity cycle.new }
{
    let mut stands = from;
    while stands != sought {
        if stands == 0 {
            return false;
        }
        let link = labels.links[stands as usize];
        let demand = demand_of_link(bounds, picks, stands, link);
        push_tag(cycle, demand.why);
        stands = demand.constraint.right;
    }
    true
}
