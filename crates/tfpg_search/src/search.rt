//! The search of one set of failure modes, over all rounds.

ghost use Rattle.std.specs.Prelude.{◌≡◌, ◌≤◌, ◌<◌, ◌+◌, ◌-◌, ℕ, [], All, IfOk, Ok, length};
ghost use Rattle.tfpg_graph.specs.Graph.{failures};
ghost use Rattle.tfpg_graph.specs.Reach.{IsReach};
ghost use Rattle.tfpg_log.specs.Log.{Logbook, IsLogOf, IsOrdered, first_events};
ghost use Rattle.tfpg_search.specs.Represents.{SearchRepresents, RepresentsSome};
ghost use Rattle.tfpg_search.specs.inside.AtItsLeaf.{IsAtItsLeaf};
ghost use Rattle.tfpg_search.specs.Enough.{IsEnough};
ghost use Rattle.tfpg_search.specs.Searched.{IsSearched, call_of};
ghost use Rattle.tfpg_search.specs.SearchState.{calls_of_search, case_of_search};
ghost use Rattle.tfpg_search.specs.Work.{NodeBounds, AreFactBounds, IsWorkLimit};
ghost use Rattle.tfpg_search.specs.inside.Counted.{CountsAlike, IsPaid};
ghost use Rattle.tfpg_search.specs.inside.Moves.{KeepsSet, SearchesOn};

mod entering;
mod judging;
mod loading;

use crate::clause_laws::clause_laws;
use crate::found::Found;
use crate::leaf_system::LeafSystem;
use crate::raising::is_tried;
use std::alloc::Global;
use std::marker::Model;
use std::sync::ledger::Ledger;
use tfpg_base::{NoMemory, Set, Steps, Trace};
use tfpg_clause::PathSplit;
use tfpg_diff::CountedCalls;
use tfpg_evidence::{ClauseName, StepList};
use tfpg_graph::{Graph, NodeSet};
use tfpg_log::Log;

/// The search for traces that explain a growing log from one set of failure modes. Its tree of steps grows over all rounds.
#[derive(Drop)]
pub struct Search {
    alloc: Global,
    set: Set,
    reach: NodeSet,
    seen: u32,
    path: Vec<PathSplit>,
    leaf: LeafSystem,
}

impl Model for Search {
    ghost use Rattle.tfpg_search.specs.SearchState.{SearchState};

    ghost Value = { SearchState };

    ghost view = { λ s. record {
      set = s.set;
      reach = s.reach;
      seen = s.seen;
      path = s.path.items;
      entered = s.leaf.entered;
      leaf = s.leaf;
    } };
}

/// What was seen at a loaded leaf.
#[derive(Drop)]
pub(crate) enum Look {
    /// This trace explains the log: the latest solution, or times that were proposed beside it, cut at now.
    Shown(Trace),
    /// The latest solution violates this clause first.
    Violated(ClauseName),
}

impl Search {
    /// The search for a set of failure modes that reaches these nodes, before any event. It keeps about 92 bytes for each
    /// node, and for each split on the path to its present leaf the split, one index and the constraints of its alternative.
    pub fn new(alloc: Global, graph: &Graph, set: Set, reach: NodeSet) -> Result<Search, NoMemory>
        requires members { All (λ index. index < length (failures graph.now)) set }
        requires reach { IsReach graph.now set reach }
        ensures set { IfOk result (λ search. search.set ≡ set) }
        ensures reach { IfOk result (λ search. search.reach ≡ reach) }
        ensures seen { IfOk result (λ search. search.seen ≡ 0) }
        ensures uncounted { IfOk result (λ search. calls_of_search search ≡ 0) }
        ensures represents { (log : Logbook) →
            IfOk result (λ search. SearchRepresents graph.now (first_events log 0) search []) }
    {
        clause_laws();
        let leaf = LeafSystem::new(alloc, graph.node_count())?;
        Ok(Search {
            alloc,
            set,
            reach,
            seen: 0,
            path: Vec::new(alloc),
            leaf,
        })
    }

    /// A copy of the search, with the allocator that the search keeps. It continues by itself, and the search stays as it is. Its system
    /// is another one, and has counted as many calls. Takes time and memory linear in what the search keeps.
    pub fn copy(&self) -> Result<Search, NoMemory>
        ensures { IfOk result (λ copy.
            copy ≡ record self.now { leaf = record self.now.leaf { identity = copy.leaf.identity } }) }
    {
        let path = self.path.clone()?;
        let leaf = self.leaf.copy()?;
        Ok(Search {
            alloc: self.alloc,
            set: self.set,
            reach: self.reach,
            seen: self.seen,
            path,
            leaf,
        })
    }

    /// How many calls its system has counted in all rounds so far, for contracts alone. Does nothing.
    pub fn calls(&self) -> CountedCalls
        ensures { result.number ≡ calls_of_search self.now }
    {
        self.leaf.calls()
    }

    /// How many events the log had at the last round, and 0 before the first.
    pub fn seen(&self) -> u32
        ensures { result ≡ self.now.seen }
    {
        self.seen
    }

    /// Continues the search, for a log that goes on from that of the last round. Appends the steps of this round, with
    /// at most as many splits as the budget says. It goes over the facts of the log once, and once more for each leaf that they close.
    ///
    /// The counter counts the calls that add to the system, and no others: what the system itself counted rose by as much. They are at
    /// most one for each bound of a node that the log changed since the last round, and four for each step and once more. The search
    /// keeps its system: none is made anew or copied in its place.
    pub fn round<L: Ledger>(
        &mut self,
        graph: &Graph,
        log: &Log,
        budget: u64,
        steps: &mut StepList,
        work: &mut Steps<L>,
    ) -> Result<Found, NoMemory>
        requires of { IsLogOf graph.now log.now }
        requires event { 1 ≤ length log.now.events }
        requires budget { 1 ≤ budget }
        requires represents { RepresentsSome graph.now log.now self.old }
        ensures searched { IsSearched graph.now log.now budget
            (call_of self.old self.new steps.old steps.new) result }
        ensures work { (limit : ℕ) → IsWorkLimit (case_of_search graph.now log.now self.old) self.old.seen
            (length steps.new - length steps.old) limit → work.new ≤ work.old + limit }
        ensures counted { calls_of_search self.new + work.old ≡ calls_of_search self.old + work.new }
        ensures identity { self.new.leaf.identity ≡ self.old.leaf.identity }
        ensures enough { IsEnough graph.now log.now budget → result ≡ Ok Found.Spent → ⊥ }
        ensures set { self.new.set ≡ self.old.set }
        ensures reach { self.new.reach ≡ self.old.reach }
        ensures seen { self.new.seen ≡ length log.now.events }
    {
        clause_laws();
        self.see(log);
        self.search_on(graph, log, budget, steps, work)
    }

    /// Looks at one leaf after the other, and splits where the latest solution violates a clause. The facts of the log are gone over
    /// once, and once more for each leaf that they close: where a leaf was loaded, the system has them for the rest of the round.
    fn search_on<L: Ledger>(
        &mut self,
        graph: &Graph,
        log: &Log,
        budget: u64,
        steps: &mut StepList,
        work: &mut Steps<L>,
    ) -> Result<Found, NoMemory>
        requires of { IsLogOf graph.now log.now }
        requires stands { IsAtItsLeaf graph.now log.now self.old }
        ensures keeps { KeepsSet self.old self.new }
        ensures searches { SearchesOn graph.now log.now budget
            (call_of self.old self.new steps.old steps.new) result }
        ensures counts { (bounds : NodeBounds) → AreFactBounds (case_of_search graph.now log.now self.old) bounds →
            IsPaid bounds (call_of self.old self.new steps.old steps.new) work.old work.new }
        ensures counted { CountsAlike self.old.leaf self.new.leaf work.old work.new }
    {
        let mut spent = 0;
        let mut has_facts = false;
        loop {
            match self.look(graph, log, has_facts, is_tried(spent, budget), steps, work) {
                Err(NoMemory) => return Err(NoMemory),
                Ok(None) => return Ok(Found::Closed),
                Ok(Some(Look::Shown(trace))) => return Ok(Found::Shown(trace)),
                Ok(Some(Look::Violated(name))) => {
                    has_facts = true;
                    if spent == budget {
                        return Ok(Found::Spent);
                    }
                    match self.split(graph, log, name, steps) {
                        Ok(()) => spent += 1,
                        Err(NoMemory) => return Err(NoMemory),
                    }
                }
            }
        }
    }

    /// Goes on to this log.
    fn see(&mut self, log: &Log)
        ensures same { self.new ≡ record self.old { seen = length log.now.events } }
        ensures ordered { IsOrdered log.now }
    {
        self.seen = log.len();
    }
}
