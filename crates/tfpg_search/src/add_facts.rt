//! The facts of a log as bounds of a system.

ghost use Rattle.std.specs.Prelude.{◌≡◌, ◌<◌, ◌+◌, ℕ, pos, length, Some, OnOk, slice_get};
ghost use Rattle.tfpg_base.specs.declared.constraint.Constraint.{Constraint};
ghost use Rattle.tfpg_base.specs.Constraint.{Meets};
ghost use Rattle.tfpg_evidence.specs.declared.reason.Reason.{Reason};
ghost use Rattle.tfpg_base.specs.Bounds.{at_most, at_least};
ghost use Rattle.tfpg_clause.specs.Case.{case_of};
ghost use Rattle.tfpg_clause.specs.Facts.{fact};
ghost use Rattle.tfpg_diff.specs.Solution.{IsSolution};
ghost use Rattle.tfpg_diff.specs.SystemState.{with_floor, with_ceiling};
ghost use Rattle.tfpg_search.specs.Work.{NodeBounds, AreFactBounds};
ghost use Rattle.tfpg_search.specs.inside.Counted.{CountsAlike, CountsFacts};
ghost use Rattle.tfpg_search.specs.inside.Facts.{AreFactsIn};
ghost use Rattle.tfpg_search.specs.inside.KeptReasons.{low_reason, high_reason};
ghost use Rattle.tfpg_search.specs.inside.LeafCalls.{AddsFact, AddsFacts};

use crate::add_fault::AddFault;
use crate::fact_bounds::{HighBound, LowBound, high, low};
use crate::leaf_system::LeafSystem;
use std::sync::ledger::Ledger;
use tfpg_base::Steps;
use tfpg_graph::{Graph, NodeSet};
use tfpg_log::Log;

impl LeafSystem {
    /// Tightens the bounds of each node to what the facts of the log and of this reach say. At a fault those of some nodes
    /// are tightened, and each still has its reason. A bound that is tight enough takes no step.
    pub(crate) fn add_facts<L: Ledger>(
        &mut self,
        graph: &Graph,
        log: &Log,
        reach: &NodeSet,
        work: &mut Steps<L>,
    ) -> Result<(), AddFault>
        requires nodes { length self.old.demands.bounds ≡ length graph.now.nodes }
        ensures adds { AddsFacts (fact (case_of graph.now log.now reach.now)) self.old self.new result }
        ensures picks { self.new.demands.picks ≡ self.old.demands.picks }
        ensures facts { OnOk result ((node : ℕ) → node < length graph.now.nodes →
            AreFactsIn (fact (case_of graph.now log.now reach.now)) self.new.demands node) }
        ensures counts { (bounds : NodeBounds) → AreFactBounds (case_of graph.now log.now reach.now) bounds →
            CountsFacts bounds self.old self.new work.old work.new result }
        ensures counted { CountsAlike self.old self.new work.old work.new }
        ensures identity { self.new.identity ≡ self.old.identity }
    {
        for node in 0..graph.node_count() {
            self.raise_to(node, low(graph, log, reach, node), work)?;
            self.lower_to(node, high(graph, log, node), work)?;
        }
        Ok(())
    }

    /// Raises the lower bound of a node, where the new one is greater.
    fn raise_to<L: Ledger>(
        &mut self,
        node: u32,
        low: LowBound,
        work: &mut Steps<L>,
    ) -> Result<(), AddFault>
        requires { node < length self.old.demands.bounds }
        ensures ok { OnOk result (self.new.demands ≡ with_floor self.old.demands node low.time node) }
        ensures adds { AddsFact (low_reason node low.time low.reason) (at_least node low.time) self.old self.new result }
        ensures counts { (bounds : NodeBounds) → slice_get bounds.lows node ≡ Some low.time →
            CountsFacts bounds self.old self.new work.old work.new result }
        ensures counted { CountsAlike self.old self.new work.old work.new }
        ensures identity { self.new.identity ≡ self.old.identity }
    {
        if low.time <= self.bounds(node).floor() {
            return Ok(());
        }
        self.raise(node, low, work)
    }

    /// Lowers the upper bound of a node, where the new one is less.
    fn lower_to<L: Ledger>(
        &mut self,
        node: u32,
        high: HighBound,
        work: &mut Steps<L>,
    ) -> Result<(), AddFault>
        requires { node < length self.old.demands.bounds }
        ensures ok { OnOk result (self.new.demands ≡
            with_ceiling self.old.demands node high.time (length self.old.demands.bounds + node)) }
        ensures adds { AddsFact (high_reason node high.reason) (at_most node (pos high.time)) self.old self.new result }
        ensures counts { (bounds : NodeBounds) → slice_get bounds.highs node ≡ Some high.time →
            CountsFacts bounds self.old self.new work.old work.new result }
        ensures counted { CountsAlike self.old self.new work.old work.new }
        ensures identity { self.new.identity ≡ self.old.identity }
    {
        if self.bounds(node).ceiling() <= high.time {
            return Ok(());
        }
        self.lower(node, high, work)
    }
}
