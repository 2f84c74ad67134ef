//! The system of the present leaf: the bounds of the facts below, the constraints of the alternatives on the path above,
//! each with its reason.

ghost use Rattle.std.specs.Prelude.{◌≡◌, ◌<◌, ◌≤◌, ◌+◌, ◌*◌, ◌++◌, ◌∷◌, [], ℕ, pos, length, take, slice_get, All, Option, Some, Ok, Err, IfOk, OnOk, OnErr, IfErr, IsTrue, ◌↔◌};
ghost use Rattle.tfpg_base.specs.declared.limits.TheConstants.{NEVER};
ghost use Rattle.tfpg_base.specs.declared.constraint.Constraint.{Constraint};
ghost use Rattle.tfpg_evidence.specs.declared.reason.Reason.{Reason};
ghost use Rattle.tfpg_evidence.specs.declared.reason.Reason.TheVariants.{Zero, Top, Pick};
ghost use Rattle.tfpg_base.specs.Bounds.{at_most, at_least};
ghost use Rattle.tfpg_diff.specs.VariableBounds.{VariableBounds};
ghost use Rattle.tfpg_diff.specs.Demands.{Bounded, demands_of};
ghost use Rattle.tfpg_diff.specs.Solution.{IsBetween, IsSolution, IsLatest};
ghost use Rattle.tfpg_diff.specs.SystemState.{with_floor, with_ceiling, with_pick};
ghost use Rattle.tfpg_search.specs.Work.{widest_bounds};
ghost use Rattle.tfpg_search.specs.inside.Leaf.{bounds_in, pick_reasons, IsStated};
ghost use Rattle.tfpg_search.specs.inside.Counted.{CountsAlike};
ghost use Rattle.tfpg_search.specs.inside.LeafCalls.{AddsFact, AddsPick};
ghost use Rattle.tfpg_search.specs.inside.Leaving.{Leaves};
ghost use Rattle.tfpg_search.specs.inside.EnteredPicks.{IsNext};
ghost use Rattle.tfpg_search.specs.inside.KeptReasons.{low_reason, high_reason};

mod naming;

use crate::add_fault::AddFault;
use crate::fact_bounds::{HighBound, LowBound};
use crate::kept_reason::{HighReason, LowReason};
use std::alloc::Global;
use std::marker::Model;
use std::sync::ledger::Ledger;
use tfpg_base::{Constraint, NoMemory, Steps};
use tfpg_diff::{Bounds, Conflict, CountedCalls, System};
use tfpg_evidence::Reason;

/// A difference system over the times of the nodes, with the reason of each of its tags.
///
/// The tag of a node's lower bound is the node's number, that of its upper bound stands after all lower bounds, and that of
/// a pick after all bounds: so a tag is the index of its reason. Which constraint a pick is follows from how many picks stand before
/// each alternative that is entered.
#[derive(Drop)]
pub(crate) struct LeafSystem {
    alloc: Global,
    system: System,
    lows: Vec<LowReason>,
    highs: Vec<HighReason>,
    entered: Vec<usize>,
}

impl Model for LeafSystem {
    ghost use Rattle.tfpg_search.specs.inside.Leaf.{Leaf};
    ghost use Rattle.tfpg_search.specs.inside.KeptReasons.{kept_reasons, AreKept};

    ghost Value = { Leaf };

    ghost view = { λ leaf. record {
      demands = leaf.system.demands;
      reasons = kept_reasons leaf.system.demands leaf.lows.items leaf.highs.items leaf.entered.items;
      entered = leaf.entered.items;
      calls = leaf.system.calls;
      identity = leaf.system.identity;
    } };

    ghost invariant = { λ leaf. AreKept leaf.system.demands leaf.lows.items leaf.highs.items leaf.entered.items };
}

impl LeafSystem {
    /// The system of so many nodes, of which nothing is known but that their times lie in range.
    pub(crate) fn new(alloc: Global, nodes: u32) -> Result<LeafSystem, NoMemory>
        ensures nodes { IfOk result (λ leaf. length leaf.demands.bounds ≡ nodes) }
        ensures widest { IfOk result (λ leaf. bounds_in leaf ≡ widest_bounds nodes) }
        ensures no_picks { IfOk result (λ leaf. leaf.demands.picks ≡ []) }
        ensures not_entered { IfOk result (λ leaf. leaf.entered ≡ []) }
        ensures no_reasons { IfOk result (λ leaf. pick_reasons leaf ≡ []) }
        ensures uncounted { IfOk result (λ leaf. leaf.calls ≡ 0) }
        ensures stated { (fact : Reason → Option Constraint) →
            ((node : ℕ) → node < nodes → fact (Zero node) ≡ Some (at_least node 0)) →
            ((node : ℕ) → node < nodes → fact (Top node) ≡ Some (at_most node (pos NEVER))) →
            IfOk result (λ leaf. IsStated fact fact leaf) }
    {
        let system = System::new(alloc, nodes)?;
        let lows = vec![in alloc; LowReason::Zero; nodes as usize]?;
        let highs = vec![in alloc; HighReason::Top; nodes as usize]?;
        Ok(LeafSystem {
            alloc,
            system,
            lows,
            highs,
            entered: Vec::new(alloc),
        })
    }

    /// A copy, with the allocator that the system keeps. It is another system.
    pub(crate) fn copy(&self) -> Result<LeafSystem, NoMemory>
        ensures { IfOk result (λ copy. copy ≡ record self.now { identity = copy.identity }) }
    {
        let system = self.system.copy()?;
        let lows = self.lows.clone()?;
        let highs = self.highs.clone()?;
        let entered = self.entered.clone()?;
        Ok(LeafSystem {
            alloc: self.alloc,
            system,
            lows,
            highs,
            entered,
        })
    }

    /// How many calls it has counted, for contracts alone.
    pub(crate) fn calls(&self) -> CountedCalls
        ensures { result.number ≡ self.now.calls }
    {
        self.system.calls()
    }

    /// The present bounds of a node.
    pub(crate) fn bounds(&self, node: u32) -> Bounds
        requires { node < length self.now.demands.bounds }
        ensures { Bounded self.now.demands node result }
    {
        self.system.bounds(node)
    }

    /// The present bounds of a node, where there is one. The number may be any.
    pub(crate) fn find_bounds(&self, node: u32) -> Option<Bounds> {
        if node < self.node_count() {
            return Some(self.bounds(node));
        }
        None
    }

    /// Of how many nodes it is.
    fn node_count(&self) -> u32
        ensures { result ≡ length self.now.demands.bounds }
    {
        self.system.variable_count()
    }

    /// Whether there is one of these times for each node, and it lies between the bounds of the node.
    pub(crate) fn allows(&self, times: &[u64]) -> bool
        ensures { IsTrue result ↔ IsSolution (demands_of self.now.demands.bounds []) times.now }
    {
        if times.len() != self.node_count() as usize {
            return false;
        }
        for node in 0..times.len() {
            if !is_between(self.bounds(node as u32), times[node]) {
                return false;
            }
        }
        true
    }

    /// The latest solution, a time for each node.
    pub(crate) fn solution(&self) -> &[u64]
        ensures latest { IsLatest self.now.demands result.now }
        ensures within { All (λ time. time ≤ NEVER) result.now }
    {
        self.system.solution()
    }

    /// How many picks there are.
    pub(crate) fn pick_count(&self) -> usize
        ensures picks { result ≡ length self.now.demands.picks }
        ensures reasons { result ≡ length (pick_reasons self.now) }
    {
        self.system.pick_count() as usize
    }

    /// Does nothing: brings into a proof that each pick has its reason.
    pub(crate) fn has_a_reason_for_each_pick(&self)
        ensures { length self.now.demands.picks ≡ length (pick_reasons self.now) }
    {
        let _count = self.pick_count();
    }

    /// The node is active at that time at the earliest, which is tighter than its lower bound.
    pub(crate) fn raise<L: Ledger>(
        &mut self,
        node: u32,
        low: LowBound,
        work: &mut Steps<L>,
    ) -> Result<(), AddFault>
        requires node { node < length self.old.demands.bounds }
        requires tighter { (bounds : VariableBounds) → Bounded self.old.demands node bounds → bounds.floor < low.time }
        ensures ok { OnOk result (self.new.demands ≡ with_floor self.old.demands node low.time node) }
        ensures adds { AddsFact (low_reason node low.time low.reason) (at_least node low.time)
            self.old self.new result }
        ensures step { work.new ≡ work.old + 1 }
        ensures counted { CountsAlike self.old self.new work.old work.new }
        ensures identity { self.new.identity ≡ self.old.identity }
    {
        let tag = u64::from(node);
        match self.system.raise(node, low.time, tag, work) {
            Ok(()) => {
                self.lows[node as usize] = low.reason;
                Ok(())
            }
            Err(Conflict) => Err(self.refused(
                self.system.cycle(),
                tag,
                low.reason.of(node, low.time),
            )),
        }
    }

    /// The node is active by that time, which is tighter than its upper bound.
    pub(crate) fn lower<L: Ledger>(
        &mut self,
        node: u32,
        high: HighBound,
        work: &mut Steps<L>,
    ) -> Result<(), AddFault>
        requires node { node < length self.old.demands.bounds }
        requires tighter { (bounds : VariableBounds) → Bounded self.old.demands node bounds →
            high.time < bounds.ceiling }
        ensures ok { OnOk result
            (self.new.demands ≡ with_ceiling self.old.demands node high.time
            (length self.old.demands.bounds + node)) }
        ensures adds { AddsFact (high_reason node high.reason) (at_most node (pos high.time))
            self.old self.new result }
        ensures step { work.new ≡ work.old + 1 }
        ensures counted { CountsAlike self.old self.new work.old work.new }
        ensures identity { self.new.identity ≡ self.old.identity }
    {
        let tag = u64::from(self.system.variable_count()) + u64::from(node);
        match self.system.lower(node, high.time, tag, work) {
            Ok(()) => {
                self.highs[node as usize] = high.reason;
                Ok(())
            }
            Err(Conflict) => Err(self.refused(self.system.cycle(), tag, high.reason.of(node))),
        }
    }

    /// How many alternatives are entered.
    pub(crate) fn entered_count(&self) -> usize
        ensures { result ≡ length self.now.entered }
    {
        self.entered.len()
    }

    /// Enters one more alternative, to which the picks after it belong.
    pub(crate) fn enter(&mut self) -> Result<(), NoMemory>
        ensures ok { OnOk result (self.new ≡ record self.old {
          entered = self.old.entered ++ length (pick_reasons self.old) ∷ [];
        }) }
        ensures err { OnErr result (self.new ≡ self.old) }
    {
        let before = self.pick_count();
        self.entered.push(before)?;
        Ok(())
    }

    /// Pushes the next constraint of the alternative that was entered last: that of this split and this number, both
    /// counted from 1.
    pub(crate) fn push<L: Ledger>(
        &mut self,
        constraint: Constraint,
        split: u64,
        number: u32,
        work: &mut Steps<L>,
    ) -> Result<(), AddFault>
        requires left { constraint.left ≤ length self.old.demands.bounds }
        requires right { constraint.right ≤ length self.old.demands.bounds }
        requires next { IsNext self.old.entered (length (pick_reasons self.old)) split number }
        ensures ok { OnOk result (self.new.demands ≡ with_pick self.old.demands constraint
            (2 * length self.old.demands.bounds + length self.old.demands.picks)) }
        ensures adds { AddsPick (Pick split number) constraint self.old self.new result }
        ensures step { work.new ≤ work.old + 1 }
        ensures counted { CountsAlike self.old self.new work.old work.new }
        ensures identity { self.new.identity ≡ self.old.identity }
    {
        let tag = self.next_tag();
        self.system.reserve(1)?;
        match self.system.push(constraint, tag, work) {
            Ok(()) => Ok(()),
            Err(Conflict) => Err(self.refused(
                self.system.cycle(),
                tag,
                Reason::Pick {
                    split,
                    place: number,
                },
            )),
        }
    }

    /// The tag of the next pick.
    fn next_tag(&self) -> u64
        ensures { result ≡ 2 * length self.now.demands.bounds + length self.now.demands.picks }
    {
        2 * u64::from(self.system.variable_count()) + self.system.pick_count()
    }

    /// Leaves all alternatives but the first so many.
    pub(crate) fn leave(&mut self, kept: usize)
        requires { kept < length self.old.entered }
        ensures leaves { Leaves (slice_get self.old.entered kept) self.old self.new }
        ensures bounds { self.new.demands.bounds ≡ self.old.demands.bounds }
        ensures entered { self.new.entered ≡ take kept self.old.entered }
        ensures counted { self.new.calls ≡ self.old.calls }
        ensures identity { self.new.identity ≡ self.old.identity }
    {
        let before = self.entered[kept];
        self.system.pop_to(before as u64);
        self.entered.truncate(kept);
    }
}

/// Whether the time lies between the bounds, or is one of them.
fn is_between(bounds: Bounds, time: u64) -> bool
    ensures { IsTrue result ↔ IsBetween bounds time }
{
    bounds.floor() <= time && time <= bounds.ceiling()
}
