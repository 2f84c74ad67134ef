//! One event, all hypotheses.

ghost use Rattle.std.specs.Prelude.{◌≡◌, ◌+◌, ◌≤◌, ◌<◌, ◌↔◌, ℕ, List, [], true, false, Some, IfOk, IfSome, OnOk, OnErr, Ok, Err, option_map, replicate, slice_get};
ghost use Rattle.tfpg_base.specs.Hypothesis.{Hypothesis};
ghost use Rattle.tfpg_evidence.specs.declared.round.Round.{Round};
ghost use Rattle.tfpg_base.specs.declared.limits.TheConstants.{MAX_DOUBT};
ghost use Rattle.tfpg_hyp.specs.Hypotheses.{HasHypotheses, IsTableOf};
ghost use Rattle.tfpg_hyp.specs.declared.limits.TheConstants.{MAX_HYPOTHESES};
ghost use Rattle.tfpg_log.specs.Accepted.{reply_to};
ghost use Rattle.tfpg_log.specs.Log.{IsLogOf};
ghost use Rattle.tfpg_log.specs.LogOfLines.{new_log};
ghost use Rattle.tfpg_log.specs.declared.refusal.Refusal.{Refusal};
ghost use Rattle.tfpg_engine.specs.EngineState.{EngineRepresents, Brings, CountsCalls, IsLentSearch, calls_of_engine, lent_search};

use crate::inquiry::LentInquiry;
use crate::round;
use crate::slot::Slot;
use crate::told::{EventFault, Told};
use crate::tree_laws::tree_laws;
use std::alloc::Global;
use std::marker::Model;
use std::sync::ledger::Ledger;
use tfpg_base::{NoMemory, Steps, Terms};
use tfpg_graph::Graph;
use tfpg_hyp::laws::{hypotheses_stand_by_size, subsets_stand_before_their_supersets};
use tfpg_hyp::{Table, TableFault};
use tfpg_log::{Log, Offered};
use tfpg_search::Search;

/// Diagnoses a graph by a growing log: for each accepted line a finding for each hypothesis.
#[derive(Drop)]
pub struct Engine {
    alloc: Global,
    graph: Graph,
    log: Log,
    terms: Terms,
    table: Table,
    slots: Vec<Slot>,
    ended: bool,
}

impl Model for Engine {
    ghost use Rattle.tfpg_engine.specs.EngineState.{EngineState};
    ghost use Rattle.tfpg_engine.specs.inside.Slots.{IsEngine, engine_state_of};

    ghost Value = { EngineState };

    ghost view = { engine_state_of };

    ghost invariant = { λ e. IsEngine (engine_state_of e) };
}

impl Engine {
    /// The engine of a graph, for all hypotheses of at most `k` members, at most `doubt` of them monitors, with at most `budget`
    /// splits of each in a round. Where there are more than [`MAX_HYPOTHESES`](tfpg_hyp::MAX_HYPOTHESES)
    /// hypotheses, the fault says how many.
    pub fn new(
        alloc: Global,
        graph: Graph,
        k: u32,
        doubt: u32,
        budget: u64,
    ) -> Result<Engine, TableFault>
        requires doubt { doubt ≤ MAX_DOUBT }
        requires budget { 1 ≤ budget }
        ensures graph { IfOk result (λ engine. engine.graph ≡ graph) }
        ensures terms { IfOk result (λ engine. engine.terms ≡ record { k = k; doubt = doubt; budget = budget }) }
        ensures log { IfOk result (λ engine. engine.log ≡ new_log) }
        ensures represents { IfOk result (λ engine. EngineRepresents engine []) }
        ensures uncounted { IfOk result (λ engine. calls_of_engine engine ≡ 0) }
        ensures too_many { (count : ℕ) → (result ≡ Err (TableFault.TooMany count)) ↔
            ((MAX_HYPOTHESES < count) × HasHypotheses graph (record { k = k; doubt = doubt; budget = budget }) count) }
    {
        let table = Table::new(alloc, &graph, k, doubt)?;
        let slots = untouched(alloc, table.len())?;
        Ok(Engine {
            alloc,
            graph,
            log: Log::new(alloc),
            terms: Terms { k, doubt, budget },
            table,
            slots,
            ended: false,
        })
    }

    /// Takes a line of the log. A refused one changes nothing. An accepted one gives the round of all events so far, whose
    /// steps go on from those of the rounds before. Where memory runs out the engine has ended, and each later call says so and changes
    /// nothing.
    ///
    /// The hypotheses go in the order of their numbers, each by the log that ignores the monitors that it doubts. A rejected one
    /// is passed over; one with a ranked proper part is covered by the one with the least number. Every other one is searched,
    /// with at most as many splits as the budget says. A line is accepted or refused by the log that ignores no monitor. A round
    /// keeps within the limits of its counted calls, and a refused line costs none. The counter counts all of them, and nothing else: what
    /// the systems of all searches have counted rises by as much.
    pub fn event<L: Ledger>(
        &mut self,
        line: u64,
        text: &[u8],
        work: &mut Steps<L>,
    ) -> Result<Told, EventFault>
        ensures brings { (rounds : List Round) → EngineRepresents self.old rounds →
            Brings line text.now rounds self.old self.new result }
        ensures refused { (refusal : Refusal) → self.old.ended ≡ false →
            reply_to self.old.graph self.old.log text.now ≡ Offered.Refused refusal →
            result ≡ Ok (Told.Refused refusal) }
        ensures work { (rounds : List Round) → EngineRepresents self.old rounds →
            CountsCalls self.new rounds result work.old work.new }
        ensures counted { calls_of_engine self.new + work.old ≡ calls_of_engine self.old + work.new }
        ensures ended { (result ≡ Err EventFault.Ended) ↔ (self.old.ended ≡ true) }
        ensures stays { result ≡ Err EventFault.Ended → (self.new ≡ self.old) × (work.new ≡ work.old) }
        ensures ends { OnErr result (self.new.ended ≡ true) }
        ensures runs { OnOk result (self.new.ended ≡ false) }
        ensures graph { self.new.graph ≡ self.old.graph }
        ensures terms { self.new.terms ≡ self.old.terms }
        ensures table { self.new.table ≡ self.old.table }
    {
        if self.ended {
            return Err(EventFault::Ended);
        }
        match self.log.offer(&self.graph, text) {
            Ok(Offered::Refused(refusal)) => Ok(Told::Refused(refusal)),
            Ok(Offered::Accepted(_)) => {
                self.log.is_always_ordered();
                tree_laws();
                subsets_stand_before_their_supersets();
                hypotheses_stand_by_size();
                let inquiry = LentInquiry {
                    graph: &self.graph,
                    terms: self.terms,
                };
                match round::make(
                    self.alloc,
                    &inquiry,
                    &mut self.log,
                    &self.table,
                    line,
                    &mut self.slots,
                    work,
                ) {
                    Ok(round) => Ok(Told::Round(round)),
                    Err(NoMemory) => {
                        self.ended = true;
                        Err(EventFault::NoMemory)
                    }
                }
            }
            Err(NoMemory) => {
                self.ended = true;
                Err(EventFault::NoMemory)
            }
        }
    }

    /// The graph.
    pub fn graph(&self) -> &Graph
        ensures { result.now ≡ self.now.graph }
    {
        &self.graph
    }

    /// The log of the accepted lines, which is of the graph and ignores no monitor.
    pub fn log(&self) -> &Log
        ensures log { result.now ≡ self.now.log }
        ensures of { IsLogOf self.now.graph result.now }
        ensures ignores_none { result.now.ignored ≡ [] }
    {
        &self.log
    }

    /// What it was asked with.
    pub fn terms(&self) -> Terms
        ensures { result ≡ self.now.terms }
    {
        self.terms
    }

    /// How many splits of a hypothesis a round has at most.
    pub fn budget(&self) -> u64
        ensures { result ≡ self.now.terms.budget }
    {
        self.terms.budget
    }

    /// The table of hypotheses, which is that of the graph and the terms.
    pub fn table(&self) -> &Table
        ensures table { result.now ≡ self.now.table }
        ensures of { IsTableOf self.now.graph self.now.terms result.now }
    {
        &self.table
    }

    /// Lends the search of the hypothesis of a number, where it was searched and is not rejected, and the engine has not ended; and else
    /// none. A copy of it continues at the log of the engine, and at each log that goes on from that.
    pub fn search(&self, number: u32) -> Option<&Search>
        ensures lent { option_map (λ search. search.now) result ≡ lent_search self.now number }
        ensures represents { (hypothesis : Hypothesis) → slice_get self.now.table.hypotheses number ≡ Some hypothesis →
            IfSome result (λ search. IsLentSearch self.now hypothesis search.now) }
    {
        if self.ended {
            return None;
        }
        match self.slots.get(number as usize)? {
            Slot::Searched(search) => Some(search),
            Slot::Untouched => None,
            Slot::Rejected(_) => None,
        }
    }
}

/// So many slots of hypotheses that were never searched.
fn untouched(alloc: Global, count: u32) -> Result<Vec<Slot>, NoMemory>
    ensures { IfOk result (λ slots. slots.items ≡ replicate count Slot.Untouched) }
{
    let mut slots = Vec::with_capacity(alloc, count as usize)?;
    for _ in 0..count {
        slots.push(Slot::Untouched)?;
    }
    Ok(slots)
}
