//! A vehicle of a fleet: its engine, and the numbers of its lines.

ghost use Rattle.std.specs.Prelude.{◌≡◌, ◌≤◌, ◌↔◌, ◌+◌, ℕ, List, true, IfOk, OnErr, Err, Ok, Some, bytes_eq};
ghost use Rattle.tfpg_base.specs.declared.limits.TheConstants.{MAX_DOUBT};
ghost use Rattle.tfpg_evidence.specs.declared.round.Round.{Round};
ghost use Rattle.tfpg_hyp.specs.Hypotheses.{HasHypotheses};
ghost use Rattle.tfpg_hyp.specs.declared.limits.TheConstants.{MAX_HYPOTHESES};
ghost use Rattle.tfpg_log.specs.Log.{IsLogOf};
ghost use Rattle.tfpg_log.specs.declared.refusal.Refusal.{Refusal};
ghost use Rattle.tfpg_engine.specs.EngineState.{EngineRepresents, CountsCalls, calls_of_engine};
ghost use Rattle.tfpg_fleet.specs.FleetState.{IsNew, IsVehicleTold, Refuses, has_ended};

use std::alloc::Global;
use std::marker::Model;
use std::sync::ledger::Ledger;
use tfpg_base::{Bytes, NoMemory, Steps, Terms};
use tfpg_engine::{Engine, EventFault, Told};
use tfpg_graph::Graph;
use tfpg_log::Log;

/// A vehicle of a fleet.
#[derive(Drop)]
pub(crate) struct Vehicle {
    name: Bytes,
    engine: Engine,
    /// The number of its next line. There is none once memory has run out.
    next: Option<u64>,
}

impl Model for Vehicle {
    ghost use Rattle.tfpg_fleet.specs.FleetState.{VehicleState};
    ghost use Rattle.tfpg_fleet.specs.inside.Vehicles.{IsVehicle};

    ghost Value = { VehicleState };

    ghost view = { λ vehicle. record {
      name = vehicle.name;
      engine = vehicle.engine;
      next = vehicle.next;
    } };

    ghost invariant = { λ vehicle. IsVehicle (record {
      name = vehicle.name;
      engine = vehicle.engine;
      next = vehicle.next;
    }) };
}

impl Vehicle {
    /// The vehicle of this name, with an engine of its own for a copy of the graph, on these terms.
    pub(crate) fn new(
        alloc: Global,
        graph: &Graph,
        name: &Bytes,
        terms: Terms,
    ) -> Result<Vehicle, NoMemory>
        requires doubt { terms.doubt ≤ MAX_DOUBT }
        requires budget { 1 ≤ terms.budget }
        requires few { (count : ℕ) → HasHypotheses graph.now terms count → count ≤ MAX_HYPOTHESES }
        ensures name { IfOk result (λ vehicle. vehicle.name ≡ name.now) }
        ensures new { IfOk result (IsNew graph.now terms) }
        ensures uncounted { IfOk result (λ vehicle. calls_of_engine vehicle.engine ≡ 0) }
    {
        let name = name.copy()?;
        let graph = graph.copy()?;
        // There are few hypotheses, so that memory alone can run out.
        let Ok(engine) = Engine::new(alloc, graph, terms.k, terms.doubt, terms.budget) else {
            return Err(NoMemory);
        };
        Ok(Vehicle {
            name,
            engine,
            next: Some(1),
        })
    }

    /// Whether this is the name of the vehicle.
    pub(crate) fn is_named(&self, name: &[u8]) -> bool
        ensures { result ≡ bytes_eq self.now.name name.now }
    {
        self.name.as_slice() == name
    }

    /// Takes the next line of the vehicle, and returns its number and what it brings. Where memory runs out the vehicle has ended. It has
    /// 2^64 - 2 lines at most: where there is no number for one line more, memory runs out.
    pub(crate) fn take<L: Ledger>(
        &mut self,
        text: &[u8],
        work: &mut Steps<L>,
    ) -> Result<(u64, Told), EventFault>
        ensures told { IfOk result (λ answer. IsVehicleTold text.now self.old self.new answer.0 answer.1) }
        ensures work { IfOk result (λ answer. (rounds : List Round) → EngineRepresents self.old.engine rounds →
            CountsCalls self.new.engine rounds (Ok answer.1) work.old work.new) }
        ensures counted { calls_of_engine self.new.engine + work.old ≡ calls_of_engine self.old.engine + work.new }
        ensures refused { (line : ℕ) (refusal : Refusal) → Refuses text.now self.old line refusal →
            result ≡ Ok (line, Told.Refused refusal) }
        ensures ended { (result ≡ Err EventFault.Ended) ↔ (has_ended self.old ≡ true) }
        ensures same { result ≡ Err EventFault.Ended → self.new ≡ self.old }
        ensures ends { OnErr result (has_ended self.new ≡ true) }
        ensures name { self.new.name ≡ self.old.name }
    {
        let line = self.next.take().ok_or(EventFault::Ended)?;
        let next = line.checked_add(1).ok_or(EventFault::NoMemory)?;
        let told = self.engine.event(line, text, work)?;
        self.next = Some(next);
        Ok((line, told))
    }

    /// The log of its accepted lines.
    pub(crate) fn log(&self) -> &Log
        ensures log { result.now ≡ self.now.engine.log }
        ensures of { IsLogOf self.now.engine.graph result.now }
    {
        self.engine.log()
    }
}
