//! What the engine keeps of a hypothesis.

ghost use Rattle.std.specs.Prelude.{◌≡◌, List, false, IfOk, OnErr};
ghost use Rattle.tfpg_log.specs.Log.{Logbook, first_events};
ghost use Rattle.tfpg_clause.specs.Case.{case_of};
ghost use Rattle.tfpg_clause.specs.Trees.{Judged};
ghost use Rattle.tfpg_search.specs.SearchState.{calls_of_search};
ghost use Rattle.tfpg_engine.specs.EngineState.{SlotRepresents, calls_of_slot, is_rejected_slot, events_seen};
ghost use Rattle.tfpg_engine.specs.inside.Inquiries.{IsRowOfGraph, row_of};
ghost use Rattle.tfpg_engine.specs.inside.NewFindings.{kept};

use crate::listed::Listed;
use std::alloc::Global;
use tfpg_base::NoMemory;
use tfpg_diff::CountedCalls;
use tfpg_graph::Graph;
use tfpg_search::{Found, Search};

/// What the engine keeps of a hypothesis.
#[derive(Drop)]
pub enum Slot {
    /// It was never searched.
    Untouched,
    /// It was searched, and is not rejected.
    Searched(Search),
    /// It is rejected, and has given its memory back. How many calls its system had counted stays, for contracts alone.
    Rejected(CountedCalls),
}

impl Slot {
    /// Whether the hypothesis is rejected.
    pub(crate) fn is_rejected(&self) -> bool
        ensures { result ≡ is_rejected_slot self.now }
    {
        match self {
            Slot::Untouched => false,
            Slot::Searched(_) => false,
            Slot::Rejected(_) => true,
        }
    }

    /// What is kept of a search that found this in its last round.
    pub(crate) fn of(search: Search, found: &Found) -> Slot
        ensures { result ≡ kept search found.now }
    {
        match found {
            Found::Shown(_) => Slot::Searched(search),
            Found::Closed => Slot::Rejected(search.calls()),
            Found::Spent => Slot::Searched(search),
        }
    }

    /// The search of a hypothesis that is not rejected: its own, or a new one where it was never searched.
    pub(crate) fn into_search(
        self,
        alloc: Global,
        graph: &Graph,
        listed: &Listed<'_>,
    ) -> Result<Search, NoMemory>
        requires { IsRowOfGraph graph.now (row_of listed.now) }
        ensures represents { IfOk result (λ search. (log : Logbook) (steps : List Judged) →
            is_rejected_slot self ≡ false →
            SlotRepresents (case_of graph.now log listed.now.reach.now) listed.now.hypothesis
            self steps →
            SlotRepresents (case_of graph.now log listed.now.reach.now) listed.now.hypothesis
            (Slot.Searched search) steps) }
        ensures seen { IfOk result (λ search. search.seen ≡ events_seen self) }
        ensures counted { IfOk result (λ search. is_rejected_slot self ≡ false →
            calls_of_search search ≡ calls_of_slot self) }
        ensures uncounted { OnErr result (is_rejected_slot self ≡ false → calls_of_slot self ≡ 0) }
    {
        match self {
            Slot::Searched(search) => Ok(search),
            Slot::Untouched => Search::new(alloc, graph, listed.hypothesis.set, *listed.reach),
            Slot::Rejected(_) => Search::new(alloc, graph, listed.hypothesis.set, *listed.reach),
        }
    }
}
