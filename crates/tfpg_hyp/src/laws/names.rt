//! That a round names only what its graph has.

ghost use Rattle.std.specs.Prelude.{ℕ, List};
ghost use Rattle.tfpg_base.specs.declared.terms.Terms.{Terms};
ghost use Rattle.tfpg_graph.specs.Graph.{Tfpg, sizes_of};
ghost use Rattle.tfpg_log.specs.Log.{Logbook, IsLogOf};
ghost use Rattle.tfpg_evidence.specs.declared.round.Round.{Round};
ghost use Rattle.tfpg_evidence.specs.RoundOf.{IsRoundOf};
ghost use Rattle.tfpg_hyp.specs.Rounds.{IsRound};

/// A round names only nodes, edges and failure modes of its graph, the numbers of its findings rise, and each number of its
/// order is that of a ranked finding.
pub fn a_round_is_of_its_graph()
    ensures { (graph : Tfpg) (terms : Terms) (line : ℕ) (rounds : List Round) (log : Logbook)
        (round : Round) →
        IsLogOf graph log → IsRound graph terms rounds log line round →
        IsRoundOf (sizes_of graph) round }
{}
