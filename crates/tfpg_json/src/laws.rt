//! The laws of the crate's definitions, as functions that do nothing: each says its law in its clauses.

ghost use Rattle.std.specs.Prelude.{◌≡◌, ◌⊎◌, ℕ, List};
ghost use Rattle.tfpg_graph.specs.Graph.{Tfpg};
ghost use Rattle.tfpg_graph.specs.Valid.{IsValid};
ghost use Rattle.tfpg_graph.specs.declared.cause.GraphFault.{GraphFault};
ghost use Rattle.tfpg_json.specs.GraphData.{graph_json};
ghost use Rattle.tfpg_json.specs.GraphText.{IsJsonFault, SpellsAsJson};

use tfpg_graph::laws::{
    a_text_has_at_most_one_first_fault, a_text_spells_a_valid_graph_or_has_a_first_fault,
};

/// What [`write_graph`](crate::write_graph) appends for a valid graph spells that graph, so that
/// [`read_graph`](crate::read_graph) reads it as the same graph.
pub fn a_written_graph_is_read_back()
    ensures { (graph : Tfpg) → IsValid graph → SpellsAsJson (graph_json graph) graph }
{}

/// Every text spells a valid graph as JSON, or has a first fault as JSON.
pub fn a_text_spells_a_valid_graph_as_json_or_has_a_first_fault()
    ensures { (text : List ℕ) → ((graph : Tfpg) × SpellsAsJson text graph × IsValid graph) ⊎
        ((fault : GraphFault) × IsJsonFault text fault) }
{
    a_text_spells_a_valid_graph_or_has_a_first_fault();
}

/// A text has at most one first fault as JSON, and one that spells a valid graph as JSON has none.
pub fn a_text_has_at_most_one_first_fault_as_json()
    ensures one { (text : List ℕ) (fault other : GraphFault) →
        IsJsonFault text fault → IsJsonFault text other → fault ≡ other }
    ensures none { (text : List ℕ) (graph : Tfpg) → SpellsAsJson text graph → IsValid graph →
        (fault : GraphFault) → IsJsonFault text fault → ⊥ }
{
    a_text_has_at_most_one_first_fault();
}
