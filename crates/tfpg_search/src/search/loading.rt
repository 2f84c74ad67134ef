//! The moves of a search: all that holds at the present leaf is brought into the system, the leaf is closed or split.

ghost use Rattle.std.specs.Prelude.{◌≡◌, ◌↔◌, ◌+◌, ◌<◌, ◌≤◌, ◌++◌, ◌∷◌, ℕ, [], IsTrue, IfOk, OnOk, OnErr, IfErr, length, Option, Some, None, List};
ghost use Rattle.std.specs.Bool.{MatchBool};
ghost use Rattle.tfpg_base.specs.Constraint.{Meets};
ghost use Rattle.tfpg_diff.specs.Solution.{IsSolution};
ghost use Rattle.tfpg_base.specs.declared.constraint.Constraint.{Constraint};
ghost use Rattle.tfpg_log.specs.Log.{IsLogOf};
ghost use Rattle.tfpg_evidence.specs.declared.reason.Reason.{Reason};
ghost use Rattle.tfpg_clause.specs.Facts.{fact};
ghost use Rattle.tfpg_clause.specs.Paths.{chosen_on, cited_by, next_leaf, above_last, IsMarkedReusable};
ghost use Rattle.tfpg_clause.specs.inside.MarkedTrees.{stated_on};
ghost use Rattle.tfpg_search.specs.inside.Leaf.{pick_reasons, IsStated};
ghost use Rattle.tfpg_search.specs.SearchState.{case_of_search};
ghost use Rattle.tfpg_search.specs.inside.AtItsLeaf.{IsAtItsLeaf, HasEnteredAll};
ghost use Rattle.tfpg_search.specs.Live.{IsLiveAt};
ghost use Rattle.tfpg_search.specs.Work.{NodeBounds, AreFactBounds};
ghost use Rattle.tfpg_search.specs.inside.Counted.{unset, due, CountsAlike, IsPaid};
ghost use Rattle.tfpg_search.specs.inside.Facts.{AreFactsIn};
ghost use Rattle.tfpg_search.specs.Searched.{call_of};
ghost use Rattle.tfpg_search.specs.inside.Closing.{IsSimpleCycle, Closes};
ghost use Rattle.tfpg_search.specs.inside.LeafCalls.{AddsFacts};
ghost use Rattle.tfpg_search.specs.inside.Moves.{KeepsSet, HasFactBounds, IsLoaded, Closing, Loading, Looking, Splitting};

use crate::add_fault::AddFault;
use crate::clause_laws::clause_laws;
use crate::search::{Look, Search};
use std::sync::ledger::Ledger;
use tfpg_base::{NoMemory, Steps};
use tfpg_clause::{PathSplit, backtrack, cite, is_reusable, reuse};
use tfpg_evidence::{ClauseName, Reason, Reasons, Step, StepList};
use tfpg_graph::Graph;
use tfpg_log::Log;

impl Search {
    /// Loads the present leaf, and looks whether its latest solution keeps the rules, or else for a trace by raising, if that is
    /// asked for. Returns what was seen, or that no leaf is left.
    pub(super) fn look<L: Ledger>(
        &mut self,
        graph: &Graph,
        log: &Log,
        has_facts: bool,
        raises: bool,
        steps: &mut StepList,
        work: &mut Steps<L>,
    ) -> Result<Option<Look>, NoMemory>
        requires of { IsLogOf graph.now log.now }
        requires stands { IsAtItsLeaf graph.now log.now self.old }
        requires facts { IsTrue has_facts → HasFactBounds graph.now log.now self.old }
        ensures keeps { KeepsSet self.old self.new }
        ensures looking { Looking graph.now log.now (call_of self.old self.new steps.old steps.new) result }
        ensures counts { (bounds : NodeBounds) → AreFactBounds (case_of_search graph.now log.now self.old) bounds →
            IsPaid bounds (call_of self.old self.new steps.old steps.new) work.old work.new }
        ensures counted { CountsAlike self.old.leaf self.new.leaf work.old work.new }
    {
        match self.load(graph, log, has_facts, steps, work) {
            Ok(true) => {}
            Ok(false) => return Ok(None),
            Err(NoMemory) => return Err(NoMemory),
        }
        match self.judge(graph, log, raises) {
            Ok(look) => Ok(Some(look)),
            Err(NoMemory) => Err(NoMemory),
        }
    }

    /// Brings all that holds at the present leaf into the system. Where a subtree is reusable at the leaf, or no times meet what
    /// holds there, the leaf is closed and the next one taken. Returns whether there is a leaf left. Facts that the system lacks are
    /// gone over once, and once more for each leaf that they close.
    fn load<L: Ledger>(
        &mut self,
        graph: &Graph,
        log: &Log,
        has_facts: bool,
        steps: &mut StepList,
        work: &mut Steps<L>,
    ) -> Result<bool, NoMemory>
        requires stands { IsAtItsLeaf graph.now log.now self.old }
        requires facts { IsTrue has_facts → HasFactBounds graph.now log.now self.old }
        ensures keeps { KeepsSet self.old self.new }
        ensures loading { Loading graph.now log.now (call_of self.old self.new steps.old steps.new) result }
        ensures counts { (bounds : NodeBounds) → AreFactBounds (case_of_search graph.now log.now self.old) bounds →
            IsPaid bounds (call_of self.old self.new steps.old steps.new) work.old work.new }
        ensures counted { CountsAlike self.old.leaf self.new.leaf work.old work.new }
    {
        loop {
            if self.is_reusable() {
                match self.reuse(graph, log, steps) {
                    Ok(true) => continue,
                    Ok(false) => return Ok(false),
                    Err(NoMemory) => return Err(NoMemory),
                }
            }
            match self.add_all(graph, log, has_facts, work) {
                Ok(()) => return Ok(true),
                Err(AddFault::NoMemory) => return Err(NoMemory),
                Err(AddFault::Conflict(reasons)) => match self.close(graph, log, reasons, steps) {
                    Ok(true) => {}
                    Ok(false) => return Ok(false),
                    Err(NoMemory) => return Err(NoMemory),
                },
            }
        }
    }

    /// Adds the alternative that is not yet entered, and the facts of the log, unless the system has them.
    fn add_all<L: Ledger>(
        &mut self,
        graph: &Graph,
        log: &Log,
        has_facts: bool,
        work: &mut Steps<L>,
    ) -> Result<(), AddFault>
        requires stands { IsAtItsLeaf graph.now log.now self.old }
        requires facts { IsTrue has_facts → HasFactBounds graph.now log.now self.old }
        ensures stands { IsAtItsLeaf graph.now log.now self.new }
        ensures keeps { KeepsSet self.old self.new }
        ensures path { self.new.path ≡ self.old.path }
        ensures loaded { OnOk result (IsLoaded graph.now log.now self.new) }
        ensures bounds { IsTrue has_facts → self.new.leaf.demands.bounds ≡ self.old.leaf.demands.bounds }
        ensures counts { (bounds : NodeBounds) → AreFactBounds (case_of_search graph.now log.now self.old) bounds →
            work.new + unset bounds self.new.leaf ≤ work.old + due bounds self.old + 1 }
        ensures counted { CountsAlike self.old.leaf self.new.leaf work.old work.new }
        ensures closes { IfErr result
            (Closes (stated_on (case_of_search graph.now log.now self.old) self.old.path)) }
    {
        self.enter(graph, log, work)?;
        if has_facts {
            return Ok(());
        }
        self.add_facts(graph, log, work)
    }

    /// Adds the facts of the log.
    fn add_facts<L: Ledger>(
        &mut self,
        graph: &Graph,
        log: &Log,
        work: &mut Steps<L>,
    ) -> Result<(), AddFault>
        requires variables { length self.old.leaf.demands.bounds ≡ length graph.now.nodes }
        ensures same { self.new ≡ record self.old { leaf = self.new.leaf } }
        ensures adds { AddsFacts (fact (case_of_search graph.now log.now self.old)) self.old.leaf self.new.leaf
            result }
        ensures facts { OnOk result ((node : ℕ) → node < length graph.now.nodes →
            AreFactsIn (fact (case_of_search graph.now log.now self.old)) self.new.leaf.demands node) }
        ensures counts { (bounds : NodeBounds) → AreFactBounds (case_of_search graph.now log.now self.old) bounds →
            work.new + unset bounds self.new.leaf ≤ work.old + unset bounds self.old.leaf + 1 }
        ensures counted { CountsAlike self.old.leaf self.new.leaf work.old work.new }
        ensures identity { self.new.leaf.identity ≡ self.old.leaf.identity }
    {
        self.leaf.add_facts(graph, log, &self.reach, work)
    }

    /// Closes the present leaf by a cycle, and takes the next one. Returns whether there is one.
    fn close(
        &mut self,
        graph: &Graph,
        log: &Log,
        reasons: Reasons,
        steps: &mut StepList,
    ) -> Result<bool, NoMemory>
        requires stands { IsAtItsLeaf graph.now log.now self.old }
        requires cycle { IsSimpleCycle
            (stated_on (case_of_search graph.now log.now self.old) self.old.path) reasons }
        requires not_reusable { IsMarkedReusable self.old.path → ⊥ }
        ensures keeps { KeepsSet self.old self.new }
        ensures closing { Closing graph.now log.now (call_of self.old self.new steps.old steps.new) result }
        ensures bounds { self.new.leaf.demands.bounds ≡ self.old.leaf.demands.bounds }
        ensures counted { self.new.leaf.calls ≡ self.old.leaf.calls }
        ensures appended { OnOk result (length steps.new ≡ length steps.old + 1) }
        ensures longer { length steps.old ≤ length steps.new }
    {
        let goes_on = self.backtrack(reasons.as_slice());
        steps.push(Step::Cycle(reasons))?;
        if !goes_on {
            return Ok(false);
        }
        let kept = self.depth() - 1;
        self.leave(kept);
        Ok(true)
    }

    /// Reuses the subtree of the alternative before at the present leaf, and takes the next leaf. Returns whether there is one.
    fn reuse(&mut self, graph: &Graph, log: &Log, steps: &mut StepList) -> Result<bool, NoMemory>
        requires stands { IsAtItsLeaf graph.now log.now self.old }
        requires reusable { IsMarkedReusable self.old.path }
        ensures keeps { KeepsSet self.old self.new }
        ensures closing { Closing graph.now log.now (call_of self.old self.new steps.old steps.new) result }
        ensures bounds { self.new.leaf.demands.bounds ≡ self.old.leaf.demands.bounds }
        ensures counted { self.new.leaf.calls ≡ self.old.leaf.calls }
        ensures appended { OnOk result (length steps.new ≡ length steps.old + 1) }
        ensures longer { length steps.old ≤ length steps.new }
    {
        steps.push(Step::Again)?;
        if !self.drop_last() {
            return Ok(false);
        }
        let kept = self.depth() - 1;
        self.leave(kept);
        Ok(true)
    }

    /// Whether a subtree is reusable at the present leaf.
    fn is_reusable(&self) -> bool
        ensures { IsTrue result ↔ IsMarkedReusable self.now.path }
    {
        is_reusable(&self.path)
    }

    /// Marks what the reasons of a cycle cite, and moves the path to the next leaf. Returns whether there is one.
    fn backtrack(&mut self, reasons: &[Reason]) -> bool
        ensures same { self.new ≡ record self.old { path = self.new.path } }
        ensures path { MatchBool result (next_leaf (cited_by reasons.now self.old.path) ≡ Some self.new.path)
            ((next_leaf (cited_by reasons.now self.old.path) ≡ None) × (self.new.path ≡ [])) }
    {
        cite(&mut self.path, reasons);
        backtrack(&mut self.path)
    }

    /// Drops the deepest split, whose alternatives are closed, and moves the path to the next leaf. Returns whether there is one.
    fn drop_last(&mut self) -> bool
        ensures same { self.new ≡ record self.old { path = self.new.path } }
        ensures path { MatchBool result (next_leaf (above_last self.old.path) ≡ Some self.new.path)
            ((next_leaf (above_last self.old.path) ≡ None) × (self.new.path ≡ [])) }
    {
        reuse(&mut self.path)
    }

    /// Splits the present leaf on a clause. Its first alternative is the present leaf then, and not yet entered.
    pub(super) fn split(
        &mut self,
        graph: &Graph,
        log: &Log,
        name: ClauseName,
        steps: &mut StepList,
    ) -> Result<(), NoMemory>
        requires stands { IsAtItsLeaf graph.now log.now self.old }
        requires entered { HasEnteredAll self.old }
        requires live { IsLiveAt (case_of_search graph.now log.now self.old) (chosen_on self.old.path) name }
        requires not_reusable { IsMarkedReusable self.old.path → ⊥ }
        ensures keeps { KeepsSet self.old self.new }
        ensures splitting { Splitting graph.now log.now
            (call_of self.old self.new steps.old steps.new) result }
        ensures leaf { self.new.leaf ≡ self.old.leaf }
        ensures appended { OnOk result (length steps.new ≡ length steps.old + 1) }
        ensures longer { length steps.old ≤ length steps.new }
    {
        clause_laws();
        let Some(split) = PathSplit::on_clause(graph, log, name) else {
            unreachable!()
        };
        self.descend(split)?;
        steps.push(Step::Split(name))?;
        Ok(())
    }

    /// Appends a split to the path.
    fn descend(&mut self, split: PathSplit) -> Result<(), NoMemory>
        ensures ok { OnOk result (self.new ≡ record self.old { path = self.old.path ++ split ∷ [] }) }
        ensures err { OnErr result (self.new ≡ self.old) }
    {
        self.path.push(split)?;
        Ok(())
    }
}
