//! What the definitions of this crate come to, as functions that do nothing: each says its law in its clauses.

ghost use Rattle.std.specs.Prelude.{◌≡◌, ◌↔◌, ◌++◌, ◌∷◌, [], ℕ, List, length, Some, None};
ghost use Rattle.tfpg_base.specs.declared.terms.Terms.{Terms};
ghost use Rattle.tfpg_graph.specs.Graph.{Tfpg};
ghost use Rattle.tfpg_graph.specs.Valid.{IsValid};
ghost use Rattle.tfpg_log.specs.declared.event.Offered.TheVariants as offered;
ghost use Rattle.tfpg_log.specs.declared.refusal.Refusal.{Refusal};
ghost use Rattle.tfpg_log.specs.Accepted.{reply_to};
ghost use Rattle.tfpg_log.specs.LogOfLines.{log_of_lines};
ghost use Rattle.tfpg_evidence.specs.declared.round.Round.{Round};
ghost use Rattle.tfpg_engine.specs.declared.told.Told.TheVariants as told;
ghost use Rattle.tfpg_fleet.specs.Alone.{IsRoundOfLines, IsSettledRound, RoundsFindTheSame};
ghost use Rattle.tfpg_fleet.specs.Belonging.{AreVehicleNames, SaysTo, VehicleLine, belongs, lines_for};
ghost use Rattle.tfpg_fleet.specs.FleetState.{FleetRepresents, FleetState, IsToldTo, names_of};

use tfpg_hyp::laws::{statuses_are_those_of_minimal_sets, the_table_is_one};
use tfpg_log::laws::a_log_of_lines_is_of_its_graph;

/// A line belongs to a vehicle exactly where it is the vehicle's name, a space, and the vehicle's own line, and is not too long.
pub fn a_line_belongs_by_its_first_word()
    ensures { (names : List (List ℕ)) (line : List ℕ) (found : VehicleLine) → AreVehicleNames names →
        (belongs names line ≡ Some found) ↔ SaysTo names line found }
{}

/// A line that belongs to no vehicle is no matter to any.
pub fn a_stray_line_is_no_matter()
    ensures { (graph : Tfpg) (terms : Terms) (fleet : FleetState) (stream : List (List ℕ)) (rounds : ℕ → List Round)
        (line : List ℕ) →
        belongs (names_of fleet) line ≡ None → FleetRepresents graph terms fleet stream rounds →
        FleetRepresents graph terms fleet (stream ++ line ∷ []) rounds }
{}

/// Each round of a vehicle is a round of its own lines alone, whatever lines of others stand between, and its line is numbered among
/// them. A line that it refuses is refused by the log of its own lines.
pub fn a_vehicle_goes_by_its_own_lines()
    ensures round { (graph : Tfpg) (terms : Terms) (old new : FleetState) (stream : List (List ℕ)) (rounds : ℕ → List Round)
        (text : List ℕ) (number line : ℕ) (round : Round) →
        FleetRepresents graph terms old stream rounds → IsToldTo text old new number line (told.Round round) →
        IsRoundOfLines graph terms (lines_for (names_of old) number (stream ++ text ∷ [])) (rounds number) line round }
    ensures refusal { (graph : Tfpg) (terms : Terms) (old new : FleetState) (stream : List (List ℕ)) (rounds : ℕ → List Round)
        (text : List ℕ) (number line : ℕ) (refusal : Refusal) →
        FleetRepresents graph terms old stream rounds →
        (is : IsToldTo text old new number line (told.Refused refusal)) →
        (line ≡ length (lines_for (names_of old) number (stream ++ text ∷ [])))
        × (reply_to graph (log_of_lines graph (lines_for (names_of old) number stream)) is.own ≡ offered.Refused refusal) }
{
    a_log_of_lines_is_of_its_graph();
}

/// Two rounds of the same lines, in diagnoses with the same `k` and `doubt`, find the same where no hypothesis is open in either: each
/// hypothesis has the same status in both.
pub fn rounds_of_the_same_lines_find_the_same()
    ensures { (graph : Tfpg) (terms alone : Terms) (lines : List (List ℕ)) (round other : Round) →
        IsValid graph → terms.k ≡ alone.k → terms.doubt ≡ alone.doubt →
        IsSettledRound graph terms lines round → IsSettledRound graph alone lines other →
        RoundsFindTheSame round other }
{
    the_table_is_one();
    statuses_are_those_of_minimal_sets();
    a_log_of_lines_is_of_its_graph();
}
