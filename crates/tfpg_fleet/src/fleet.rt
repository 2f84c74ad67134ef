//! Many vehicles on one stream.

ghost use Rattle.std.specs.Prelude.{◌≡◌, ◌≤◌, ◌<◌, ◌+◌, ◌*◌, ◌↔◌, ◌++◌, ◌∷◌, [], ℕ, List, length, map, All, IfOk, IfSome, MatchOption, Ok, Err, Some, None, slice_get, option_map};
ghost use Rattle.tfpg_base.specs.declared.limits.TheConstants.{MAX_DOUBT, MAX_VEHICLES};
ghost use Rattle.tfpg_base.specs.declared.terms.Terms.{Terms};
ghost use Rattle.tfpg_graph.specs.Graph.{Tfpg};
ghost use Rattle.tfpg_hyp.specs.Hypotheses.{HasHypotheses};
ghost use Rattle.tfpg_hyp.specs.declared.limits.TheConstants.{MAX_HYPOTHESES};
ghost use Rattle.tfpg_log.specs.Log.{IsLogOf};
ghost use Rattle.tfpg_log.specs.declared.refusal.Refusal.{Refusal};
ghost use Rattle.tfpg_evidence.specs.declared.round.Round.{Round};
ghost use Rattle.tfpg_engine.specs.declared.told.Told.TheVariants as told;
ghost use Rattle.tfpg_fleet.specs.declared.limits.TheConstants.{MAX_FLEET_HYPOTHESES};
ghost use Rattle.tfpg_fleet.specs.Belonging.{AreVehicleNames, IsFor, belongs};
ghost use Rattle.tfpg_fleet.specs.FleetState.{FleetBrings, FleetCounts, FleetRepresents, IsForEnded, IsNew, RefusesFor, VehicleState, calls_of_fleet, names_of, rounds_after};
ghost use Rattle.tfpg_fleet.specs.TooMany.{IsExcess, IsTooMany};

use crate::belonging::addressee;
use crate::fleet_told::FleetTold;
use crate::limits::MAX_FLEET_HYPOTHESES;
use crate::vehicle::Vehicle;
use std::alloc::Global;
use std::marker::Model;
use std::sync::ledger::Ledger;
use tfpg_base::{Bytes, Items, NoMemory, Steps, Terms};
use tfpg_engine::EventFault;
use tfpg_graph::Graph;
use tfpg_hyp::laws::the_table_is_one;
use tfpg_hyp::{MAX_HYPOTHESES, Table, TableFault};
use tfpg_log::Log;
use tfpg_log::laws::a_log_of_lines_is_of_its_graph;

/// The names of vehicles, in the order of their numbers.
pub type NameList = Items<Bytes>;

/// Diagnoses many vehicles of one graph by one stream of lines, each as if it were alone.
#[derive(Drop)]
pub struct Fleet {
    vehicles: Vec<Vehicle>,
}

impl Model for Fleet {
    ghost use Rattle.tfpg_fleet.specs.FleetState.{FleetState};
    ghost use Rattle.tfpg_fleet.specs.inside.Vehicles.{IsFleet};

    ghost Value = { FleetState };

    ghost view = { λ fleet. record { vehicles = fleet.vehicles.items } };

    ghost invariant = { λ fleet. IsFleet (record { vehicles = fleet.vehicles.items }) };
}

impl Fleet {
    /// The fleet of the vehicles with these names. Each has an engine of its own for a copy of the graph, with these numbers. Where there are
    /// more than [`MAX_HYPOTHESES`](tfpg_hyp::MAX_HYPOTHESES) hypotheses, the fault says how many. Where there are fewer, and yet more than
    /// [`MAX_FLEET_HYPOTHESES`](crate::MAX_FLEET_HYPOTHESES) for all vehicles together, it says how many these are.
    pub fn new(
        alloc: Global,
        graph: &Graph,
        names: &NameList,
        k: u32,
        doubt: u32,
        budget: u64,
    ) -> Result<Fleet, TableFault>
        requires names { AreVehicleNames names.now }
        requires doubt { doubt ≤ MAX_DOUBT }
        requires budget { 1 ≤ budget }
        ensures names { IfOk result (λ fleet. names_of fleet ≡ names.now) }
        ensures new { IfOk result (λ fleet.
            All (IsNew graph.now (record { k = k; doubt = doubt; budget = budget })) fleet.vehicles) }
        ensures uncounted { IfOk result (λ fleet. calls_of_fleet fleet ≡ 0) }
        ensures represents { IfOk result (λ fleet.
            FleetRepresents graph.now (record { k = k; doubt = doubt; budget = budget }) fleet [] (λ number. [])) }
        ensures too_many { (count : ℕ) → (result ≡ Err (TableFault.TooMany count)) ↔
            IsTooMany graph.now (record { k = k; doubt = doubt; budget = budget }) (length names.now) count }
    {
        the_table_is_one();
        let each = Table::count(graph, k, doubt);
        let names = names.as_slice();
        if let Some(count) = excess(names.len(), each) {
            return Err(TableFault::TooMany { count });
        }
        let terms = Terms { k, doubt, budget };
        let vehicles = new_vehicles(alloc, graph, names, terms)?;
        Ok(Fleet { vehicles })
    }

    /// Takes a line of the stream. It belongs to a vehicle where it is not too long, its first word is the vehicle's name, and a space
    /// follows; else it is stray, and changes nothing. What stands after that space is the vehicle's own next line, and goes to its engine.
    /// All other vehicles stay as they were. Where memory runs out the vehicle has ended, and each later line of it says so.
    ///
    /// It costs a look at the names, and what the line costs the engine.
    pub fn line<L: Ledger>(
        &mut self,
        text: &[u8],
        work: &mut Steps<L>,
    ) -> Result<FleetTold, EventFault>
        ensures brings { FleetBrings text.now self.old self.new result }
        ensures stray { (result ≡ Ok FleetTold.Stray) ↔ (belongs (names_of self.old) text.now ≡ None) }
        ensures refused { (number line : ℕ) (refusal : Refusal) → RefusesFor text.now self.old number line refusal →
            result ≡ Ok (FleetTold.Of number line (told.Refused refusal)) }
        ensures others { (number : ℕ) → (IsFor (names_of self.old) number text.now → ⊥) →
            slice_get self.new.vehicles number ≡ slice_get self.old.vehicles number }
        ensures ended { (result ≡ Err EventFault.Ended) ↔ IsForEnded self.old text.now }
        ensures work { FleetCounts self.old self.new result work.old work.new }
        // The counter counts what the systems of all searches count.
        ensures counted { calls_of_fleet self.new + work.old ≡ calls_of_fleet self.old + work.new }
        ensures names { names_of self.new ≡ names_of self.old }
        ensures represents { (graph : Tfpg) (terms : Terms) (stream : List (List ℕ)) (rounds : ℕ → List Round) →
            FleetRepresents graph terms self.old stream rounds →
            FleetRepresents graph terms self.new (stream ++ text.now ∷ []) (rounds_after rounds result) }
    {
        a_log_of_lines_is_of_its_graph();
        let Some((vehicle, own)) = addressee(&self.vehicles, text) else {
            return Ok(FleetTold::Stray);
        };
        let (line, told) = self.vehicles[vehicle].take(own, work)?;
        Ok(FleetTold::Of {
            vehicle: vehicle as u32,
            line,
            told,
        })
    }

    /// The log of the accepted lines of the vehicle of this number.
    pub fn log(&self, vehicle: u32) -> &Log
        requires { vehicle < length self.now.vehicles }
        ensures log { option_map (λ (state : VehicleState). state.engine.log) (slice_get self.now.vehicles vehicle) ≡ Some result.now }
        ensures of { (state : VehicleState) → slice_get self.now.vehicles vehicle ≡ Some state →
            IsLogOf state.engine.graph result.now }
    {
        self.vehicles[vehicle as usize].log()
    }
}

/// How many hypotheses are too many, where so many vehicles have so many each.
fn excess(vehicles: usize, each: u128) -> Option<u128>
    requires { vehicles ≤ MAX_VEHICLES }
    ensures { MatchOption result ((each ≤ MAX_HYPOTHESES) × (each * vehicles ≤ MAX_FLEET_HYPOTHESES))
        (λ count. IsExcess vehicles each count) }
{
    if each > u128::from(MAX_HYPOTHESES) {
        return Some(each);
    }
    let all = each * vehicles as u128;
    if all > u128::from(MAX_FLEET_HYPOTHESES) {
        return Some(all);
    }
    None
}

/// A new vehicle for each name.
fn new_vehicles(
    alloc: Global,
    graph: &Graph,
    names: &[Bytes],
    terms: Terms,
) -> Result<Vec<Vehicle>, NoMemory>
    requires doubt { terms.doubt ≤ MAX_DOUBT }
    requires budget { 1 ≤ terms.budget }
    requires few { (count : ℕ) → HasHypotheses graph.now terms count → count ≤ MAX_HYPOTHESES }
    ensures names { IfOk result (λ vehicles. map (λ (vehicle : VehicleState). vehicle.name) vehicles.items ≡ names.now) }
    ensures new { IfOk result (λ vehicles. All (IsNew graph.now terms) vehicles.items) }
    ensures uncounted { IfOk result (λ vehicles. calls_of_fleet (record { vehicles = vehicles.items }) ≡ 0) }
{
    let mut vehicles = Vec::with_capacity(alloc, names.len())?;
    for name in names {
        vehicles.push(Vehicle::new(alloc, graph, name, terms)?)?;
    }
    Ok(vehicles)
}
