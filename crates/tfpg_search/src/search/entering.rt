//! How a search enters alternatives, and leaves them.

ghost use Rattle.std.specs.Prelude.{◌≡◌, ◌≤◌, ◌+◌, ◌*◌, ◌-◌, ◌++◌, ◌∷◌, ℕ, [], IfOk, OnOk, OnErr, IfErr, length, Some, take, slice_get};
ghost use Rattle.tfpg_evidence.specs.declared.reason.Reason.{Reason};
ghost use Rattle.tfpg_evidence.specs.declared.reason.Reason.TheVariants.{Pick};
ghost use Rattle.tfpg_clause.specs.Facts.{fact};
ghost use Rattle.tfpg_clause.specs.inside.MarkedTrees.{picked_on, stated_on};
ghost use Rattle.tfpg_search.specs.inside.Leaf.{pick_reasons, IsStated};
ghost use Rattle.tfpg_search.specs.inside.Picks.{picks_from};
ghost use Rattle.tfpg_search.specs.SearchState.{case_of_search};
ghost use Rattle.tfpg_search.specs.inside.AtItsLeaf.{IsAtItsLeaf, HasEnteredAll};
ghost use Rattle.tfpg_search.specs.inside.Closing.{Closes};
ghost use Rattle.tfpg_search.specs.inside.Counted.{CountsAlike};
ghost use Rattle.tfpg_search.specs.inside.Leaving.{constraint_count_at, Leaves, Pushing, PushesOne};
ghost use Rattle.tfpg_search.specs.inside.EnteredPicks.{IsNext};
ghost use Rattle.tfpg_search.specs.inside.AtItsLeaf.{with_next_entered};
ghost use Rattle.tfpg_search.specs.inside.Moves.{KeepsSet};

use crate::add_fault::AddFault;
use crate::clause_laws::clause_laws;
use crate::search::Search;
use std::sync::ledger::Ledger;
use tfpg_base::{Constraint, NoMemory, Steps};
use tfpg_clause::{MAX_CONSTRAINTS, PathSplit, picked};
use tfpg_graph::Graph;
use tfpg_log::Log;

impl Search {
    /// Enters the alternative of the last split, where that was not done: adds its constraints. At a conflict none of them
    /// stays.
    pub(super) fn enter<L: Ledger>(
        &mut self,
        graph: &Graph,
        log: &Log,
        work: &mut Steps<L>,
    ) -> Result<(), AddFault>
        requires stands { IsAtItsLeaf graph.now log.now self.old }
        ensures stands { IsAtItsLeaf graph.now log.now self.new }
        ensures keeps { KeepsSet self.old self.new }
        ensures path { self.new.path ≡ self.old.path }
        ensures entered { OnOk result (HasEnteredAll self.new) }
        ensures bounds { self.new.leaf.demands.bounds ≡ self.old.leaf.demands.bounds }
        ensures counts { work.new ≤ work.old + 3 * (length self.old.path - length self.old.entered) }
        ensures counted { CountsAlike self.old.leaf self.new.leaf work.old work.new }
        ensures closes { IfErr result
            (Closes (stated_on (case_of_search graph.now log.now self.old) self.old.path)) }
    {
        let split = self.entered_count();
        if split == self.depth() {
            return Ok(());
        }
        self.mark()?;
        match self.push_all(graph, log, split as u64 + 1, work) {
            Ok(()) => Ok(()),
            Err(fault) => {
                self.leave(split);
                Err(fault)
            }
        }
    }

    /// Enters the alternative of the next split, none of whose constraints are added yet.
    fn mark(&mut self) -> Result<(), NoMemory>
        ensures ok { OnOk result (self.new ≡ with_next_entered self.old) }
        ensures err { OnErr result (self.new ≡ self.old) }
    {
        self.leaf.enter()?;
        Ok(())
    }

    /// Adds the constraints of the alternative that is entered at this split, numbered from 1.
    fn push_all<L: Ledger>(
        &mut self,
        graph: &Graph,
        log: &Log,
        split: u64,
        work: &mut Steps<L>,
    ) -> Result<(), AddFault>
        requires variables { length self.old.leaf.demands.bounds ≡ length graph.now.nodes }
        requires stated { IsStated (fact (case_of_search graph.now log.now self.old))
            (stated_on (case_of_search graph.now log.now self.old) self.old.path) self.old.leaf }
        requires next { IsNext self.old.entered (length (pick_reasons self.old.leaf)) split 1 }
        ensures same { self.new ≡ record self.old { leaf = self.new.leaf } }
        ensures pushing { Pushing (case_of_search graph.now log.now self.old) self.old.path
            self.old.leaf self.new.leaf }
        ensures ok { OnOk result (pick_reasons self.new.leaf
            ≡ pick_reasons self.old.leaf ++ picks_from split 1
            (constraint_count_at graph.now log.now self.old.path split)) }
        ensures bounds { self.new.leaf.demands.bounds ≡ self.old.leaf.demands.bounds }
        ensures counts { work.new ≤ work.old + 3 }
        ensures counted { CountsAlike self.old.leaf self.new.leaf work.old work.new }
        ensures identity { self.new.leaf.identity ≡ self.old.leaf.identity }
        ensures closes { IfErr result
            (Closes (stated_on (case_of_search graph.now log.now self.old) self.old.path)) }
    {
        clause_laws();
        graph.is_always_valid();
        for before in 0..MAX_CONSTRAINTS {
            match self.push_one(graph, log, split, before + 1, work) {
                Ok(true) => {}
                Ok(false) => return Ok(()),
                Err(fault) => return Err(fault),
            }
        }
        Ok(())
    }

    /// Adds the constraint with this number in the alternative that is entered at this split, both numbered from 1. Returns
    /// whether there is one.
    fn push_one<L: Ledger>(
        &mut self,
        graph: &Graph,
        log: &Log,
        split: u64,
        number: u32,
        work: &mut Steps<L>,
    ) -> Result<bool, AddFault>
        requires variables { length self.old.leaf.demands.bounds ≡ length graph.now.nodes }
        requires stated { IsStated (fact (case_of_search graph.now log.now self.old))
            (stated_on (case_of_search graph.now log.now self.old) self.old.path) self.old.leaf }
        requires next { IsNext self.old.entered (length (pick_reasons self.old.leaf)) split number }
        ensures same { self.new ≡ record self.old { leaf = self.new.leaf } }
        ensures pushing { Pushing (case_of_search graph.now log.now self.old) self.old.path
            self.old.leaf self.new.leaf }
        ensures ok { IfOk result
            (PushesOne (picked_on graph.now log.now self.old.path split number) (Pick split number)
            self.old.leaf self.new.leaf) }
        ensures bounds { self.new.leaf.demands.bounds ≡ self.old.leaf.demands.bounds }
        ensures counts { work.new ≤ work.old + 1 }
        ensures counted { CountsAlike self.old.leaf self.new.leaf work.old work.new }
        ensures identity { self.new.leaf.identity ≡ self.old.leaf.identity }
        ensures closes { IfErr result
            (Closes (stated_on (case_of_search graph.now log.now self.old) self.old.path)) }
    {
        clause_laws();
        graph.is_always_valid();
        let Some(constraint) = picked_on(graph, log, &self.path, split, number) else {
            return Ok(false);
        };
        match self.leaf.push(constraint, split, number, work) {
            Ok(()) => Ok(true),
            Err(fault) => Err(fault),
        }
    }

    /// Leaves all alternatives but the first so many.
    pub(super) fn leave(&mut self, kept: usize)
        ensures same { self.new
            ≡ record self.old { entered = take kept self.old.entered; leaf = self.new.leaf } }
        ensures leaf { Leaves (slice_get self.old.entered kept) self.old.leaf self.new.leaf }
        ensures bounds { self.new.leaf.demands.bounds ≡ self.old.leaf.demands.bounds }
        ensures counted { self.new.leaf.calls ≡ self.old.leaf.calls }
        ensures identity { self.new.leaf.identity ≡ self.old.leaf.identity }
    {
        if kept < self.entered_count() {
            self.leaf.leave(kept);
        }
    }

    /// How many splits are on the path.
    pub(super) fn depth(&self) -> usize
        ensures { result ≡ length self.now.path }
    {
        self.path.len()
    }

    /// The alternatives of how many splits were entered.
    fn entered_count(&self) -> usize
        ensures { result ≡ length self.now.entered }
    {
        self.leaf.entered_count()
    }
}

/// The constraint that is picked on the path, by its splits.
fn picked_on(
    graph: &Graph,
    log: &Log,
    path: &[PathSplit],
    split: u64,
    number: u32,
) -> Option<Constraint>
    ensures { result ≡ picked_on graph.now log.now path.now split number }
{
    picked(graph, log, path, split, number)
}
