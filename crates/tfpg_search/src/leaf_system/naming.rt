//! The reasons of a negative cycle.

ghost use Rattle.std.specs.Prelude.{◌≡◌, ◌<◌, ◌≤◌, ◌+◌, ◌*◌, ℕ, All, IfOk, length, map, slice_index, slice_index_or};
ghost use Rattle.std.specs.List.Sorted.{IsNonDecreasing};
ghost use Rattle.tfpg_evidence.specs.declared.reason.Reason.TheVariants.{Zero};
ghost use Rattle.tfpg_search.specs.inside.Closing.{IsFaultOf};
ghost use Rattle.tfpg_search.specs.inside.KeptReasons.{IsNamed, reason_or};

use crate::add_fault::AddFault;
use crate::leaf_system::LeafSystem;
use tfpg_base::NoMemory;
use tfpg_diff::Why;
use tfpg_evidence::{Reason, Reasons};

impl LeafSystem {
    /// The conflict with the reasons of a cycle, or out of memory. The tag is that of what was to be added, for this reason.
    pub(super) fn refused(&self, cycle: &[Why], tag: u64, adding: Reason) -> AddFault
        requires { All (IsNamed self.now.reasons tag) cycle.now }
        ensures { IsFaultOf (map (reason_or self.now.reasons tag adding) cycle.now) result }
    {
        match self.reasons_of(cycle, tag, adding) {
            Ok(list) => AddFault::Conflict(list),
            Err(NoMemory) => AddFault::NoMemory,
        }
    }

    /// The reasons of tags, in their order.
    fn reasons_of(&self, cycle: &[Why], tag: u64, adding: Reason) -> Result<Reasons, NoMemory>
        requires { All (IsNamed self.now.reasons tag) cycle.now }
        ensures { IfOk result (λ list. list ≡ map (reason_or self.now.reasons tag adding) cycle.now) }
    {
        let mut list = Vec::with_capacity(self.alloc, cycle.len())?;
        for why in cycle {
            list.push(self.reason_of(*why, tag, adding))?;
        }
        Ok(Reasons::from_vec(list))
    }

    /// The reason of a tag.
    fn reason_of(&self, why: Why, tag: u64, adding: Reason) -> Reason
        requires { IsNamed self.now.reasons tag why }
        ensures { result ≡ reason_or self.now.reasons tag adding why }
    {
        match why {
            Why::Floor(node) => Reason::Zero { node },
            Why::Ceiling(node) => Reason::Top { node },
            Why::Given(given) => {
                if given == tag {
                    adding
                } else {
                    self.reason_at(given)
                }
            }
        }
    }

    /// The reason at an index: first those of the lower bounds of the nodes, then those of their upper bounds, then those of the
    /// picks.
    fn reason_at(&self, index: u64) -> Reason
        requires { index < length self.now.reasons }
        ensures { result ≡ slice_index_or self.now.reasons index (Zero 0) }
    {
        let nodes = u64::from(self.system.variable_count());
        if index < nodes {
            self.low_reason(index as u32)
        } else if index < 2 * nodes {
            self.high_reason((index - nodes) as u32)
        } else {
            self.pick_reason((index - 2 * nodes) as usize)
        }
    }

    /// The reason of the lower bound of a node.
    fn low_reason(&self, node: u32) -> Reason
        requires { node < length self.now.demands.bounds }
        ensures { result ≡ slice_index_or self.now.reasons node (Zero 0) }
    {
        self.lows[node as usize].of(node, self.system.bounds(node).floor())
    }

    /// The reason of the upper bound of a node.
    fn high_reason(&self, node: u32) -> Reason
        requires { node < length self.now.demands.bounds }
        ensures { result ≡ slice_index_or self.now.reasons (length self.now.demands.bounds + node) (Zero 0) }
    {
        self.highs[node as usize].of(node)
    }

    /// The reason of a pick: the alternative that it belongs to is the last that begins before it or with it. Takes time
    /// logarithmic in the number of alternatives that are entered.
    fn pick_reason(&self, pick: usize) -> Reason
        requires { pick < length self.now.demands.picks }
        ensures { result
            ≡ slice_index_or self.now.reasons (2 * length self.now.demands.bounds + pick) (Zero 0) }
    {
        let split = begun_by(&self.entered, pick);
        let first = self.entered[split - 1];
        Reason::Pick {
            split: split as u64,
            place: (pick - first + 1) as u32,
        }
    }
}

/// How many of these rising indexes are at most this one.
fn begun_by(entered: &[usize], pick: usize) -> usize
    requires { IsNonDecreasing entered.now }
    ensures upto { result ≤ length entered.now }
    ensures before { (k : ℕ) → k < result → slice_index entered.now k ≤ pick }
    ensures after { result < length entered.now → pick < slice_index entered.now result }
{
    entered.partition_point(|first| *first <= pick)
}
